//! Why bytes are not taken as a preparation.
ghost use Rattle.std.specs.Prelude.{◌≡◌};
ghost use Rattle.prep_store.specs.declared.fault.PrepFault.TheVariants.{NoMemory};

use gh_base::DirEdge;
use thiserror::Error;

/// Why bytes are not taken as a preparation, in the order of the bytes.
#[derive(Clone, Copy, Debug, PartialEq, Eq, Error)]
pub enum PrepFault {
    /// The source failed, and counted it. Read it again.
    #[error("cannot read the preparation")]
    ReadFault,
    #[error("no memory")]
    NoMemory,
    /// The end came after so many bytes, within a number or an item. The store was cut.
    #[error("the preparation is cut")]
    Short {
        byte: u64,
    },
    /// It isn't a store, or one of another form.
    #[error("this is no preparation")]
    Magic,
    /// The ground has no profile of this number.
    #[error("the preparation is of another profile")]
    Profile {
        profile: u32,
    },
    /// The ground has other numbers of towers and edges: the store is one of another map.
    #[error("the preparation is of another map")]
    Sizes {
        towers: u32,
        edges: u32,
    },
    /// There are no landmarks, or more than 16.
    #[error("the preparation has a bad number of landmarks")]
    Count {
        count: u32,
    },
    /// At this place the rule has another landmark, or none: the store is one of other roads.
    #[error("the preparation has another landmark")]
    Landmarks {
        place: u32,
    },
    /// The grain is another.
    #[error("the preparation has another grain")]
    Grain {
        grain: u64,
    },
    /// The item at this place of a list, to the landmark where `back`, may not stand there. Its label isn't shown.
    #[error("a label of the preparation is not shown")]
    Order {
        landmark: u32,
        back: bool,
        place: u32,
    },
    /// A hop over this directed edge leads from a node of the list to one that isn't listed or has too great a label.
    #[error("a label of the preparation is too great")]
    Open {
        landmark: u32,
        back: bool,
        edge: DirEdge,
    },
    /// More bytes follow the store.
    #[error("bytes follow the preparation")]
    After,
}

impl From<gh_base::NoMemory> for PrepFault {
    ghost from_gives = { λ _ e. e ≡ NoMemory };

    fn from(_: gh_base::NoMemory) -> PrepFault {
        PrepFault::NoMemory
    }
}
