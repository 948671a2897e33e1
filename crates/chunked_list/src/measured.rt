// Items that say how long they are.
ghost use Rattle.std.specs.Prelude.{◌≡◌, ℕ};

/// An item with a length in units.
pub trait Measured: Copy {
    /// Its length.
    ghost units: { Self → ℕ };

    /// Its length, in units.
    fn units(&self) -> u32
        ensures { result ≡ units self.now };
}

/// What items become. Their lengths stay.
pub trait Mapping<T: Measured> {
    /// What an item becomes.
    ghost image: { Self → T → T };

    /// What an item becomes.
    fn apply(&self, item: T) -> T
        ensures value { result ≡ image self.now item }
        ensures units { T.units result ≡ T.units item };
}
