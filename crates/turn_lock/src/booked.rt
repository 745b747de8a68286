// What the lock asks of its value.
ghost use Rattle.std.specs.Prelude.{ℕ, List};

/// A value that keeps a list of entries. All of it is meaning: the lock never looks into its value.
pub trait Booked {
    /// What a value may stand for. Contracts alone name it, and no value of it is made.
    type Tag;

    /// One entry of the list.
    type Entry;

    // The list, in the order in which the entries were added.
    ghost entries: { Self → List Self.Entry };

    // The number of the seat that made an entry.
    ghost by: { Self.Entry → ℕ };

    // The tag of a lock that starts with this value.
    ghost opening: { Self → Self.Tag };

    // What a value keeps true from turn to turn, beside its list.
    ghost stands_for: { Self → Self.Tag → Type 0 };
}
