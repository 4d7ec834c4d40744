//! Laws of what files are evaluated to. They do nothing.

ghost use Rattle.const_eval.specs.Laws.{HasOneConsts, HasOneRefusal, NeverBoth, NothingRefused};

/// Files have one evaluation, or one refusal: never two, and never both.
pub fn one_evaluation()
    ensures consts { HasOneConsts }
    ensures refusals { HasOneRefusal }
    ensures exclusive { NeverBoth }
{}

/// Where files are evaluated, nothing is refused of any file in the order.
pub fn nothing_refused()
    ensures { NothingRefused }
{}
