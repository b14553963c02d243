//! What a command line asks for, and why it is refused.
use gh_base::Form;
use std::alloc::AllocError;
use thiserror::Error;

/// What to do. Names are as they stand among the words.
#[derive(Clone, Copy, Debug, PartialEq, Eq)]
pub enum Request<'a> {
    /// To answer queries over the map of this name, which is in this form.
    Serve {
        map: &'a str,
        form: Form,
    },
    /// To write the map of this name, which is in `form`, in the form `to`.
    Convert {
        map: &'a str,
        form: Form,
        to: Form,
    },
    /// To answer a script over a grid of `size` rows and columns, both made of this number, and write a summary.
    Generate {
        size: u32,
    },
    /// To write the roads of the map of this name, which is in this form, each as a line of GeoJSON.
    Roads {
        map: &'a str,
        form: Form,
    },
    /// To write a preparation with at most `count` landmarks of the map of this name, which is in this form.
    Prep {
        map: &'a str,
        form: Form,
        count: u32,
    },
    /// To answer query lines by searches from both ends over the map of this name, which is in this form, with
    /// at most `count` landmarks.
    Both {
        map: &'a str,
        form: Form,
        count: u32,
    },
    /// To answer query lines under the turn restrictions of the map of this name, alike.
    Turns {
        map: &'a str,
        form: Form,
        count: u32,
    },
    /// To check a preparation that was written of the map of this name, which is in this form.
    Check {
        map: &'a str,
        form: Form,
    },
}

/// Why words are no request.
#[derive(Clone, Copy, Debug, PartialEq, Eq, Error)]
pub enum WordsFault {
    #[error("no memory")]
    NoMemory,
    #[error("usage")]
    Usage,
}

impl From<AllocError> for WordsFault {
    ghost use Rattle.std.specs.Prelude.{◌≡◌};
    ghost use Rattle.gh_words.specs.declared.request.WordsFault.TheVariants as fault;

    ghost from_gives = { λ _ e. e ≡ fault.NoMemory };

    fn from(_: AllocError) -> WordsFault {
        WordsFault::NoMemory
    }
}
