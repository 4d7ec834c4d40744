//! The line feed that a file may end in.

ghost use Rattle.std.specs.Prelude.{◌≡◌};
ghost use Rattle.mojo_tool.specs.Work.{without_line_end};

/// The bytes without the one line feed that they may end in.
pub fn without_line_end(bytes: &[u8]) -> &[u8]
    ensures { result.now ≡ without_line_end bytes.now }
{
    let len = bytes.len();
    if len > 0 && bytes[len - 1] == b'\n' {
        return &bytes[..len - 1];
    }
    bytes
}
