//! That runs are alike where the ends are, whatever keeps these. The law is proved of all commands at once, so its
//! function does nothing.

ghost use Rattle.std.specs.Prelude.{◌≡◌, List, Option};
ghost use Rattle.mj_base.specs.declared.ids.EndId.{EndId};
ghost use Rattle.message_pipe.specs.declared.pipe_end.PipeEnd.{PipeEnd};
ghost use Rattle.pipe_runs.specs.Commands.{Stay, after_all, replies_to};
ghost use Rattle.pipe_runs.specs.declared.run.QueueCommand.{QueueCommand};

/// Two that keep the same ends, with the same messages at each, are told the same by all commands, and keep the same
/// ends after them.
pub fn equal_contents_run_alike()
    ensures { (commands : List QueueCommand) (one other : EndId → Option PipeEnd) → Stay one other
        → (replies_to commands other ≡ replies_to commands one) × Stay (after_all commands one) (after_all commands other) }
{}
