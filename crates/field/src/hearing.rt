// What a reader hears after a frame.
ghost use Rattle.std.specs.Prelude.{◌≡◌, Some};
ghost use Rattle.field.specs.Airs.{hearing_number, hearing_name, together};

use std::fmt;

/// Silence, a lone reply, or a clash. docs/fields.md has what may be heard when.
#[derive(Clone, Copy, PartialEq, Eq, Debug)]
pub enum Hearing {
    /// No reply.
    Silence = 0,
    /// One reply, which can be read.
    Lone = 1,
    /// Several replies at once, or one that was spoiled on its way.
    Clash = 2,
}

impl Hearing {
    /// The number by which the hearing is known outside.
    pub fn number(self) -> u8
        ensures number { result ≡ hearing_number self }
    {
        self as u8
    }

    /// The hearing in words, as programs print it.
    pub fn name(self) -> &'static str
        ensures { result.now ≡ hearing_name self }
    {
        match self {
            Hearing::Silence => "silence",
            Hearing::Lone => "lone",
            Hearing::Clash => "clash",
        }
    }

    /// What is heard of two groups of tags at once: two that are not silent are a clash.
    pub fn with(self, other: Hearing) -> Hearing
        ensures hearing { result ≡ together self other }
    {
        match (self, other) {
            (Hearing::Silence, heard) => heard,
            (heard, Hearing::Silence) => heard,
            _ => Hearing::Clash,
        }
    }
}

impl fmt::Display for Hearing {
    ghost output = { λ h. Some (hearing_name h) };

    fn fmt<W: fmt::Write>(&self, f: &mut fmt::Formatter<W>) -> fmt::Result {
        f.pad(self.name())
    }
}
