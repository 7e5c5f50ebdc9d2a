// A field whose lone replies are spoiled now and then.
ghost use Rattle.std.specs.Prelude.{◌<◌};

/// Hears each lone reply of a certain number as a clash, counted from its making.
#[derive(Drop)]
pub struct Spoiler<F> {
    pub(crate) field: F,
    // Each so many-th lone reply is spoiled.
    pub(crate) period: u16,
    // How many lone replies came since the last one that was spoiled.
    pub(crate) heard: u16,
    ghost counting: { heard < period },
}
