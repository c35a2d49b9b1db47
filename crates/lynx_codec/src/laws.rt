//! Laws of encodings, each the contract of a function that does nothing.
ghost use Rattle.std.specs.Prelude.{◌≡◌, ◌≢◌, ◌↔◌, ◌++◌, ℕ, List, [], Some, None, Ok, Err};
ghost use Rattle.std.specs.List.{flat_map, AllByRecursion};
ghost use Rattle.lynx_codec.specs.declared.item.Item.{Item};
ghost use Rattle.lynx_codec.specs.declared.fault.DecodeFault.{DecodeFault};
ghost use Rattle.lynx_codec.specs.Fields.{AreBytes};
ghost use Rattle.lynx_codec.specs.Encoding.{encoding};
ghost use Rattle.lynx_codec.specs.Front.{front};
ghost use Rattle.lynx_codec.specs.Ranges.{IsItem, IsInRange};
ghost use Rattle.lynx_codec.specs.Feeding.{Stream, BeginsNoItem, Run, empty, pushed_of, given_of};

/// No encoding begins another item's encoding, so an item is read again whatever follows its
/// encoding.
pub fn no_encoding_begins_another()
    ensures { (a b : Item) (x y : List ℕ) → IsItem a → IsItem b →
        encoding a ++ x ≡ encoding b ++ y → (a ≡ b) × (x ≡ y) }
{}

/// What a feed has given of a stream, in whatever pieces it came, are the items whose encodings,
/// joined, begin the stream.
pub fn given_encodings_begin_the_stream()
    ensures { (steps : List (List ℕ × List Item)) (now : Stream) → Run empty steps now →
        AllByRecursion IsItem (given_of steps)
        × (pushed_of steps ≡ flat_map encoding (given_of steps) ++ now.rest) }
{}

/// It does not matter in which pieces a stream comes: the same items are given, and the same bytes
/// are left.
pub fn pieces_do_not_matter()
    ensures { (ours theirs : List (List ℕ × List Item)) (x y : Stream) →
        Run empty ours x → Run empty theirs y → BeginsNoItem x.rest → BeginsNoItem y.rest →
        pushed_of ours ≡ pushed_of theirs →
        (given_of ours ≡ given_of theirs) × (x.rest ≡ y.rest) }
{}

/// A stream is the encodings of some items, and then a rest at whose front no encoding stands, in
/// one way at most.
pub fn a_stream_has_one_reading()
    ensures { (ours theirs : List Item) (x y : List ℕ) →
        AllByRecursion IsItem ours → AllByRecursion IsItem theirs →
        BeginsNoItem x → BeginsNoItem y →
        flat_map encoding ours ++ x ≡ flat_map encoding theirs ++ y → (ours ≡ theirs) × (x ≡ y) }
{}

/// What stands at the front of some bytes is an item, and behind it the rest, exactly where the
/// bytes are its encoding and the rest: so each item is read from its encoding, and from nothing
/// else.
pub fn items_are_read_from_their_encodings()
    ensures { (bytes : List ℕ) (item : Item) (rest : List ℕ) → AreBytes bytes →
        (front bytes ≡ Ok (Some (item, rest))) ↔ (IsItem item × (bytes ≡ encoding item ++ rest)) }
{}

/// A fault that stands at the front stays, whatever comes behind it.
pub fn a_fault_stays()
    ensures { (bytes more : List ℕ) (fault : DecodeFault) →
        front bytes ≡ Err fault → front (bytes ++ more) ≡ Err fault }
{}

/// An encoding without its end is no fault: more bytes have to come.
pub fn a_cut_encoding_waits()
    ensures { (item : Item) (begun rest : List ℕ) → IsItem item → AreBytes begun → rest ≢ [] →
        encoding item ≡ begun ++ rest → front begun ≡ Ok None }
{}

/// What has an encoding is in the range that `encode` asks for: a decoded item can be encoded.
pub fn items_are_in_range()
    ensures { (item : Item) → IsItem item → IsInRange item }
{}
