// What a path is made of.
ghost use Rattle.std.specs.Prelude.{◌≡◌, ◌↔◌, Bool, true};

/// An element: a value that is compared exactly.
pub trait Element: Copy {
    /// Whether both are the same.
    ghost same: { Self → Self → Bool };

    /// Whether both are the same.
    fn is_same(self, other: Self) -> bool
        ensures { result ≡ same self other };

    /// Those that are the same are one value.
    ghost exact: { (one other : Self) → same one other ≡ true ↔ one ≡ other };
}
