//! What stops threads that would else go on.
ghost use Rattle.std.specs.Prelude.{◌≡◌, true};

/// Says when threads are to stop.
pub trait Stop {
    /// It may ask for that.
    ghost may: { Self → Type 0 };

    /// Whether they are to stop.
    fn asks(&self) -> bool
        ensures { result ≡ true → may self.now };
}
