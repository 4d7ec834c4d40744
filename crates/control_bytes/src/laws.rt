//! What is written is read.

ghost use Rattle.control_bytes.specs.Controls.{written_control, HasNumber, HasWord, IsControl};
ghost use Rattle.control_bytes.specs.declared.control.Control.{Control};

/// A control that may be written, and whose numbers have 32 bits, passes its tests and is read as itself.
/// This is a law and does nothing.
pub fn controls_are_read()
    ensures { (control : Control) → HasNumber control → HasWord control → IsControl (written_control control) control }
{}
