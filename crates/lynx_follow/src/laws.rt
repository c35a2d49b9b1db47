//! What follows a server keeps a front of what it did, each the contract of a function that does
//! nothing.
ghost use Rattle.std.specs.Prelude.{◌≡◌, ◌++◌, ℕ, drop, length, take};
ghost use Rattle.lynx_entry.specs.Entry.{History};
ghost use Rattle.lynx_follow.specs.Fronts.{IsFront};

/// A front of what a server did is a front of what it has done later.
pub fn a_front_stays_one()
    ensures { (front history more : History) → IsFront front history
        → IsFront front (history ++ more) }
{}

/// A front with what comes behind it, as many entries as one likes, is a front.
pub fn a_front_goes_on()
    ensures { (front history : History) (most : ℕ) → IsFront front history
        → IsFront (front ++ take most (drop (length front) history)) history }
{}

/// What was compared with the entries that the server did from there on is a front of what it did,
/// with the front that was compared before.
pub fn what_was_compared_is_a_front()
    ensures { (front rest left did history : History) → IsFront front history
        → did ≡ take (length did) (drop (length front) history)
        → rest ≡ take (length rest) did ++ left
        → IsFront (front ++ take (length rest) did) history
        × (front ++ rest ≡ (front ++ take (length rest) did) ++ left) }
{}
