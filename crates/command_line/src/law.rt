//! Which words are wrong.

ghost use Rattle.std.specs.Prelude.{◌≡◌, ◌≤◌, ◌<◌, ◌^◌, ℕ, List, [], None, Some};
ghost use Rattle.std.specs.Fmt.{decimal};
ghost use Rattle.clap.specs.Words.{Text, fault_of, subcommand_of};
ghost use Rattle.command_line.specs.Asked.{HasWrongNumber, command_of, handles_of, messages_of, order_of};
ghost use Rattle.command_line.specs.Definition.{tool};

/// A law of the words: those in which `clap` finds no fault are a command, but for `run` with an order,
/// `decode` with a number of handles, and `load` with a seed or a number of messages that is none.
pub fn taken_words_have_a_command()
    ensures { (words : List Text) → fault_of tool words ≡ [] → command_of words ≡ None → HasWrongNumber (subcommand_of tool words) }
{}

/// A law of the number of handles: it is each number from 0 to 64 in its decimal digits, and no other text.
pub fn handles_are_digits()
    ensures taken { (n : ℕ) → n ≤ 64 → handles_of (decimal n) ≡ Some n }
    ensures only { (text : Text) (n : ℕ) → handles_of text ≡ Some n → (text ≡ decimal n) × (n ≤ 64) }
{}

/// A law of the order: it is each number of 64 bits in its decimal digits, and no other text.
pub fn orders_are_digits()
    ensures taken { (n : ℕ) → n < 2 ^ 64 → order_of (decimal n) ≡ Some n }
    ensures only { (text : Text) (n : ℕ) → order_of text ≡ Some n → (text ≡ decimal n) × (n < 2 ^ 64) }
{}

/// A law of the number of messages: it is each number from 1 to 1,000,000 in its decimal digits, and no other
/// text.
pub fn messages_are_digits()
    ensures taken { (n : ℕ) → 1 ≤ n → n ≤ 1000000 → messages_of (decimal n) ≡ Some n }
    ensures only { (text : Text) (n : ℕ) → messages_of text ≡ Some n → (text ≡ decimal n) × (1 ≤ n) × (n ≤ 1000000) }
{}
