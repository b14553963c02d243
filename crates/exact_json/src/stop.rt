//! Why reading stops.
use gh_base::NoMemory;
use std::alloc::AllocError;

/// Why reading stops: there was no memory, or the text is wrong where this many bytes are left.
#[derive(Clone, Copy, Debug, PartialEq, Eq)]
pub enum Stop<K> {
    NoMemory,
    At(usize, K),
}

impl<K> From<AllocError> for Stop<K> {
    ghost use Rattle.std.specs.Prelude.{◌≡◌};
    ghost use Rattle.exact_json.specs.declared.stop.Stop.TheVariants as stops;

    ghost from_gives = { λ _ e. e ≡ stops.NoMemory };

    fn from(_: AllocError) -> Stop<K> {
        Stop::NoMemory
    }
}

impl<K> From<NoMemory> for Stop<K> {
    ghost use Rattle.std.specs.Prelude.{◌≡◌};
    ghost use Rattle.exact_json.specs.declared.stop.Stop.TheVariants as stops;

    ghost from_gives = { λ _ e. e ≡ stops.NoMemory };

    fn from(_: NoMemory) -> Stop<K> {
        Stop::NoMemory
    }
}
