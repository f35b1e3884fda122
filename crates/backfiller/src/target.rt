//! What is filled.

ghost use Rattle.std.specs.Prelude.{Option, Result, IfOk, IfSome};
ghost use Rattle.arch_types.specs.declared.inserted.Installed.{Installed as AnInstalled};
ghost use Rattle.refusals.specs.declared.refusal.Refusal.{Refusal as ARefusal};

use arch_types::inserted::Installed;
use refusals::Refusal;

/// What fills are begun of and installed in.
pub trait FillTarget {
    type Task;

    /// What a begin does that is answered so.
    ghost begins: { Self → Result (Option Self.Task) ARefusal → Self → Type 0 };

    /// What an install of a task does that is answered so.
    ghost installs: { Self → Self.Task → Result AnInstalled ARefusal → Self → Type 0 };

    /// What giving a task up does.
    ghost abandons: { Self → Self.Task → Self → Type 0 };

    /// Whether a task is its own.
    ghost owns: { Self → Self.Task → Type 0 };

    /// Begins a fill, and gives its task. None: there is none to begin.
    fn begin(&mut self) -> Result<Option<Self::Task>, Refusal>
        ensures begun { begins self.old result self.new }
        ensures own { IfOk result (λ begun. IfSome begun (λ task. owns self.new task)) };

    /// Builds the fill of a task that is its own, and installs it.
    fn install(&mut self, task: Self::Task) -> Result<Installed, Refusal>
        requires { owns self.old task }
        ensures { installs self.old task result self.new };

    /// Gives a task up that is its own.
    fn abandon(&mut self, task: Self::Task)
        requires { owns self.old task }
        ensures { abandons self.old task self.new };
}
