// Masks, and what they select of the bytes from an address on. The two public calls take address, mask and bytes one by
// one, as a frame has them; inside the three are one struct.
ghost use Rattle.std.specs.Prelude.{◌≡◌, ◌+◌, slice_index, slice_set};
ghost use Rattle.record.specs.Masks.{selects, agrees_at, matches, stored_at, stored};

use crate::{MEMORY_LENGTH, Tag, element};

impl Tag {
    /// Whether the selected ones of eight bytes from an address on are those of a word.
    pub fn matches(&self, address: u8, mask: u8, word: &[u8]) -> bool
        ensures matches { result ≡ matches self.now.memory address mask word.now }
    {
        let wanted = Masked {
            address,
            mask,
            bytes: word,
        };
        (0..8).all(|place| wanted.agrees_at(self, place))
    }

    /// Stores the selected ones of four bytes from an address on.
    pub fn store(&mut self, address: u8, mask: u8, bytes: &[u8])
        ensures stored { self.new ≡ record self.old { memory = stored address mask bytes.now self.old.memory 4 } }
    {
        let given = Masked {
            address,
            mask,
            bytes,
        };
        // The place counts for mask, address and bytes alike, so there is no one list to go over.
        for place in 0..4 {
            given.store_at(self, place);
        }
    }

    // Puts a byte at an address, if there is such an address.
    fn put(&mut self, address: usize, byte: u8)
        ensures { self.new ≡ record self.old { memory = slice_set self.old.memory address byte } }
    {
        if address < MEMORY_LENGTH {
            self.memory[address] = byte;
        }
    }
}

// Bytes for the places from an address on, and which of them count.
#[derive(Clone, Copy)]
struct Masked<'a> {
    address: u8,
    mask: u8,
    bytes: &'a [u8],
}

impl Masked<'_> {
    // Whether the mask selects the byte at a place: its bits stand for the places, the highest for the first.
    fn selects(&self, place: u8) -> bool
        ensures { result ≡ selects self.now.mask place }
    {
        (self.mask >> 7u8.saturating_sub(place)) % 2 == 1
    }

    fn address_of(&self, place: u8) -> usize
        ensures { result ≡ self.now.address + place }
    {
        usize::from(self.address) + usize::from(place)
    }

    fn byte(&self, place: u8) -> u8
        ensures { result ≡ slice_index self.now.bytes.now place }
    {
        element(self.bytes, usize::from(place), 0)
    }

    // Whether the byte of a tag at a place is the wanted one, or not selected.
    fn agrees_at(&self, tag: &Tag, place: u8) -> bool
        ensures { result ≡ agrees_at tag.now.memory self.now.address self.now.mask self.now.bytes.now place }
    {
        !self.selects(place) || tag.byte(self.address_of(place)) == self.byte(place)
    }

    // Stores the byte at a place, if it is selected.
    fn store_at(&self, tag: &mut Tag, place: u8)
        ensures { tag.new
            ≡ record tag.old {
              memory = stored_at self.now.address self.now.mask self.now.bytes.now tag.old.memory place;
            } }
    {
        if self.selects(place) {
            tag.put(self.address_of(place), self.byte(place));
        }
    }
}
