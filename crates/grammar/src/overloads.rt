// The check of an overload list: document 01's refusal 2.
ghost use Rattle.std.specs.Prelude.{◌≡◌};
ghost use Rattle.definition.specs.Check.{list_fine};

use records::{ENTRY_END, ENTRY_SIZE, ENTRY_START};

// "list over 40,960 bytes"
const LONGEST_LIST: usize = 40960;

// "ov"
const OV: u16 = 0x766f;

// Whether the bytes are an overload list: not too long, whole entries, each `ov` and a range.
pub fn list_fine(list: &[u8]) -> bool
    ensures { result ≡ list_fine list.now }
{
    if LONGEST_LIST < list.len() {
        return false;
    }
    if list.len() % ENTRY_SIZE != 0 {
        return false;
    }
    for i in 0..list.len() / ENTRY_SIZE {
        if records::u16_at(list, ENTRY_SIZE * i) != OV {
            return false;
        }
        if records::u32_at(list, ENTRY_SIZE * i + ENTRY_END)
            < records::u32_at(list, ENTRY_SIZE * i + ENTRY_START)
        {
            return false;
        }
    }
    true
}
