use crate::item::Item;
use lynx_entry::Entry;

/// What an item's encoding begins with.
#[derive(Clone, Copy, Debug, PartialEq, Eq)]
pub enum Tag {
    Request = 0x01,
    Look = 0x02,
    Quit = 0x03,
    Shut = 0x04,
    Answer = 0x11,
    Looked = 0x12,
    Bye = 0x13,
    Message = 0x21,
    Begun = 0x22,
    Refused = 0x23,
    Hop = 0x24,
}

impl Tag {
    ghost use Rattle.std.specs.Prelude.{◌≡◌};
    ghost use Rattle.lynx_codec.specs.Encoding.{tag, byte_of};
    ghost use Rattle.lynx_codec.specs.Front.{tag_of};

    pub fn of(item: &Item) -> Tag
        ensures { result ≡ tag item.now }
    {
        match item {
            Item::Request(_) => Tag::Request,
            Item::Look(_) => Tag::Look,
            Item::Quit => Tag::Quit,
            Item::Shut => Tag::Shut,
            Item::Answer(_) => Tag::Answer,
            Item::Looked(_) => Tag::Looked,
            Item::Bye => Tag::Bye,
            Item::Message(_) => Tag::Message,
            Item::Entry(entry) => Tag::of_entry(entry),
        }
    }

    pub fn of_entry(entry: &Entry) -> Tag
        ensures { result ≡ tag (Item.Entry entry.now) }
    {
        match entry {
            Entry::Begun(_) => Tag::Begun,
            Entry::Refused(_) => Tag::Refused,
            Entry::Hop(_) => Tag::Hop,
        }
    }

    pub fn byte(self) -> u8
        ensures { result ≡ byte_of self }
    {
        self as u8
    }

    /// None where no item's encoding begins with that byte.
    #[tactic(auto, unfolding(crate::specs::Front::tag_of))]
    pub fn from_byte(byte: u8) -> Option<Tag>
        ensures { result ≡ tag_of byte }
    {
        match byte {
            0x01 => Some(Tag::Request),
            0x02 => Some(Tag::Look),
            0x03 => Some(Tag::Quit),
            0x04 => Some(Tag::Shut),
            0x11 => Some(Tag::Answer),
            0x12 => Some(Tag::Looked),
            0x13 => Some(Tag::Bye),
            0x21 => Some(Tag::Message),
            0x22 => Some(Tag::Begun),
            0x23 => Some(Tag::Refused),
            0x24 => Some(Tag::Hop),
            _ => None,
        }
    }
}
