// What a sweep counts.
ghost use Rattle.std.specs.Prelude.{◌≡◌, ◌<◌};
ghost use Rattle.slot.specs.Counts.{with_slot, with_command};
ghost use Rattle.slot.specs.Calls.{no_counts};

use field::hearing::Hearing;

/// Slots by what was heard, and commands. No count passes the budget, which is a number of this size.
#[derive(Clone, Copy, PartialEq, Eq, Debug)]
pub struct Counts {
    pub lone: u16,
    pub silent: u16,
    pub clash: u16,
    pub commands: u16,
}

impl Counts {
    pub(crate) fn new() -> Counts
        ensures { result ≡ no_counts }
    {
        Counts {
            lone: 0,
            silent: 0,
            clash: 0,
            commands: 0,
        }
    }

    // One command more, where the budget has one left.
    pub(crate) fn with_command(self) -> Counts
        requires { self.commands < 65535 }
        ensures { result ≡ with_command self }
    {
        Counts {
            commands: self.commands + 1,
            ..self
        }
    }

    // One command more, and the slot that it opened.
    pub(crate) fn with_slot(self, hearing: Hearing) -> Counts
        requires { self.commands < 65535 }
        ensures { result ≡ with_slot hearing self }
    {
        let counts = self.with_command();
        match hearing {
            Hearing::Silence => Counts {
                silent: counts.silent.saturating_add(1),
                ..counts
            },
            Hearing::Lone => Counts {
                lone: counts.lone.saturating_add(1),
                ..counts
            },
            Hearing::Clash => Counts {
                clash: counts.clash.saturating_add(1),
                ..counts
            },
        }
    }
}
