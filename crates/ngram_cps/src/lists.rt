// Sorted lists in texts, of words and of local configurations.
ghost use Rattle.std.specs.Prelude.{◌≡◌, ◌↔◌, ◌+◌, ◌*◌, ◌<◌, ◌≤◌, length, IsTrue, IfSome, IfNone, ℕ};
ghost use Rattle.ngram_cps.specs.Limits.{list_byte_limit, width_limit};
ghost use Rattle.ngram_cps.specs.Words.{item, IsListing, IsItem, is_digit, IsWordText, AreWords, IsWordList, IsLocalText, AreLocals, IsLocalList};
ghost use Rattle.machine_text.specs.Terms.{state_limit};

use std::cmp::Ordering;

// Items of one width, strictly rising by bytes, with a comma between each two. There is at least one.
#[derive(Clone, Copy, Debug, PartialEq, Eq)]
pub(crate) struct Listing<'a> {
    pub text: &'a [u8],
    pub width: usize,
    pub count: usize,
    ghost small: { width ≤ 18 },
    ghost listed: { IsListing width count text.now },
}

impl<'a> Listing<'a> {
    // The list that a text is, if it is one.
    pub fn new(text: &'a [u8], width: usize) -> Option<Listing<'a>>
        requires { width ≤ 18 }
        ensures some { IfSome result (λ l. (l.text.now ≡ text.now) × (l.width ≡ width)) }
        ensures none { IfNone result ((count : ℕ) → IsListing width count text.now → ⊥) }
    {
        if text.len() % (width + 1) != width {
            return None;
        }
        let count = text.len() / (width + 1) + 1;
        if !is_rising(text, width, count) {
            return None;
        }
        Some(Listing { text, width, count })
    }

    // How many items there are, as a small number.
    pub fn small_count(&self) -> u16
        requires { length self.now.text.now ≤ list_byte_limit }
        ensures { result ≡ self.now.count }
    {
        self.count as u16
    }

    pub fn item(&self, k: usize) -> &'a [u8]
        requires { k < self.now.count }
        ensures item { result.now ≡ item self.now.width self.now.text.now k }
        ensures length { length result.now ≡ self.now.width }
    {
        item_of(self.text, self.width, self.count, k)
    }

    // Whether these bytes are an item: a binary search.
    pub fn contains(&self, bytes: &[u8]) -> bool
        ensures { IsTrue result ↔ IsItem self.now.width self.now.text.now bytes.now }
    {
        let (mut low, mut high) = (0, self.count);
        'search: while low < high {
            let middle = low + (high - low) / 2;
            match self.item(middle).cmp(bytes) {
                Ordering::Less => low = middle + 1,
                Ordering::Equal => return true,
                Ordering::Greater => high = middle,
            }
        }
        false
    }
}

// The item at a place.
fn item_of(text: &[u8], width: usize, count: usize, k: usize) -> &[u8]
    requires width { width ≤ 18 }
    requires size { length text.now + 1 ≡ count * (width + 1) }
    requires place { k < count }
    ensures item { result.now ≡ item width text.now k }
    ensures length { length result.now ≡ width }
{
    let at = k * (width + 1);
    &text[at..at + width]
}

// Whether a text of the length of so many items is a list.
fn is_rising(text: &[u8], width: usize, count: usize) -> bool
    requires width { width ≤ 18 }
    requires size { length text.now + 1 ≡ count * (width + 1) }
    ensures { IsTrue result ↔ IsListing width count text.now }
{
    for k in 1..count {
        if text[k * (width + 1) - 1] != b',' {
            return false;
        }
        let before = item_of(text, width, count, k - 1);
        if before.cmp(item_of(text, width, count, k)) != Ordering::Less {
            return false;
        }
    }
    true
}

// The list of words of a width that a text is, if it is one.
pub(crate) fn word_list(text: &[u8], width: u8) -> Option<Listing<'_>>
    requires { width ≤ width_limit }
    ensures some { IfSome result (λ l. (l.text.now ≡ text.now) × (l.width ≡ width) × AreWords width l.count text.now) }
    ensures none { IfNone result (IsWordList width text.now → ⊥) }
{
    let list = Listing::new(text, width as usize)?;
    for k in 0..list.count {
        if !is_word(list.item(k)) {
            return None;
        }
    }
    Some(list)
}

// Whether each byte is a symbol.
pub(crate) fn is_word(bytes: &[u8]) -> bool
    ensures { IsTrue result ↔ IsWordText bytes.now }
{
    bytes.iter().all(|byte| is_digit(*byte))
}

// Whether a byte is a symbol.
pub(crate) fn is_digit(byte: u8) -> bool
    ensures { result ≡ is_digit byte }
{
    byte == b'0' || byte == b'1'
}

// The list of local configurations of a width and of so many states that a text is, if it is one.
pub(crate) fn local_list(text: &[u8], states: u8, width: u8) -> Option<Listing<'_>>
    requires states { states ≤ state_limit }
    requires width { width ≤ width_limit }
    ensures some { IfSome result (λ l. (l.text.now ≡ text.now) × (l.width ≡ 2 * width + 2)
        × AreLocals states width l.count text.now) }
    ensures none { IfNone result (IsLocalList states width text.now → ⊥) }
{
    let g = width as usize;
    let list = Listing::new(text, 2 * g + 2)?;
    for k in 0..list.count {
        if !is_local(list.item(k), states, g) {
            return None;
        }
    }
    Some(list)
}

// Whether bytes are a local configuration of a width and of so many states.
fn is_local(bytes: &[u8], states: u8, g: usize) -> bool
    requires states { states ≤ state_limit }
    requires size { length bytes.now ≡ 2 * g + 2 }
    requires width { g ≤ width_limit }
    ensures { IsTrue result ↔ IsLocalText states g bytes.now }
{
    is_word(&bytes[..g])
        && bytes[g] >= b'A'
        && bytes[g] < b'A' + states
        && is_digit(bytes[g + 1])
        && is_word(&bytes[g + 2..])
}
