//! Values of which one of two is chosen, each choice counted.

ghost use Rattle.std.specs.Prelude.{◌≡◌, ℕ, ◌+◌, ◌<◌};
ghost use Rattle.nextest_config.specs.Merge.{IsMonoid};

/// Values of which one of two in a row is chosen. A choice needs a count, and is counted.
pub trait Choose: Copy {
    /// What choices are counted in.
    type Count;

    ghost number: { Self.Count → ℕ };

    ghost choice: { Self → Self → Self };

    ghost nothing: { Self };

    /// The choice of nothing.
    fn none() -> Self
        ensures { result ≡ nothing };

    /// The choice of the two, counted.
    fn choose(left: Self, right: Self, count: &mut Self::Count) -> Self
        requires { number count.old < usize.MAX }
        ensures chosen { result ≡ choice left right }
        ensures counted { number count.new ≡ number count.old + 1 };

    ghost laws: { IsMonoid choice nothing };
}
