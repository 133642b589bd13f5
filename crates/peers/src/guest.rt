// The handshake: who has connected and hasn't shown yet that it has the token, and what both sides say then.
ghost use Rattle.std.specs.Prelude.{◌≡◌, ◌≤◌, ◌<◌, [], ◌^◌, ◌++◌, ◌-◌, ℕ, List, Some, None, Ok, IfOk, IfSome, OnOk, codes, if◌then◌else◌, length, option_map, replicate};
ghost use Rattle.std.specs.List.{list_all};
ghost use Rattle.std.specs.Str.{bytes_eq};
ghost use Rattle.hex.specs.Hex.{encode_lower};
ghost use Rattle.sha2.specs.Hashers.{Holds256};
ghost use Rattle.sha2.specs.Sha256.{sha256};
ghost use Rattle.text.specs.Terms.{cut_at};
ghost use Rattle.peers.specs.Guest.{ShowsWhere, key_block, claim, greeted, greeting, hello_in, heard, heard_in, hmac, is_low_digit, is_nonce, letter, letter_in, masked, proof, role_word, proved_by};

use hex::encode_to_slice;
use sha2::{Digest, Sha256};
use std::alloc::{AllocError as NoMemory, Global};
use std::fmt;
use std::marker::Model;
use text::cut_at;

/// The most bytes of a guest's line, with its newline.
pub const MAX_GUEST_BYTES: usize = 200;

/// How many bytes the blocks have that SHA-256 goes by.
const BLOCK_BYTES: usize = 64;

/// What the bytes of a key are turned by for the inner sum, and for the outer one.
const INNER_MASK: u8 = 0x36;

const OUTER_MASK: u8 = 0x5C;

/// How many digits a nonce has, and a proof.
const DIGITS: usize = 64;

/// A number that is used once, or a proof: 64 hexadecimal digits, with lower-case letters.
pub type Digits = [u8; DIGITS];

/// Who shows that he has the token.
#[derive(Clone, Copy, Debug, PartialEq, Eq)]
pub enum Role {
    /// A process of workers.
    Worker,
    /// A coordinator.
    Coordinator,
}

impl Role {
    #[tactic(auto, unfolding(crate::specs::Guest::role_word))]
    fn word(self) -> &'static [u8]
        ensures { result.now ≡ role_word self }
    {
        match self {
            Role::Worker => b"worker ",
            Role::Coordinator => b"coordinator ",
        }
    }
}

/// Why a guest isn't let in, or a coordinator isn't worked for.
#[derive(Clone, Copy, Debug, PartialEq, Eq)]
pub enum Refusal {
    /// What it says isn't the handshake.
    Strange,
    /// Another version speaks.
    OtherVersion,
    /// The token is another.
    WrongProof,
}

impl fmt::Display for Refusal {
    fn fmt<W: fmt::Write>(&self, f: &mut fmt::Formatter<W>) -> fmt::Result {
        match self {
            Refusal::Strange => f.write_str("it says something else than the handshake"),
            Refusal::OtherVersion => f.write_str("it is of another version"),
            Refusal::WrongProof => f.write_str("it has another token"),
        }
    }
}

/// What the bytes of a guest come to.
#[derive(Clone, Copy, Debug, PartialEq, Eq)]
pub enum Heard {
    /// More has to come: the line isn't whole.
    More,
    /// The token is shown: so many bytes of the piece belong to the handshake, and this proof is the answer.
    Shown { taken: usize, answer: Digits },
    /// The guest isn't let in.
    Refused(Refusal),
}

/// The digits of a nonce.
pub fn nonce_of(bytes: &[u8; 32]) -> Digits
    ensures { result ≡ encode_lower bytes.now }
{
    let mut digits = [0; DIGITS];
    match encode_to_slice(bytes.as_slice(), &mut digits) {
        Ok(()) => digits,
        Err(_) => unreachable!(),
    }
}

// A token as the first bytes of a block, itself or its sum.
#[tactic(auto, unfolding(crate::specs::Guest::key_block))]
fn key_block(token: &[u8]) -> [u8; BLOCK_BYTES]
    ensures { result ≡ key_block token.now }
{
    if token.len() <= BLOCK_BYTES {
        filled(token)
    } else {
        filled(&Sha256::digest(token))
    }
}

fn filled(key: &[u8]) -> [u8; BLOCK_BYTES]
    requires { length key.now ≤ 64 }
    ensures { result ≡ key.now ++ replicate (64 - length key.now) 0 }
{
    let mut block = [0; BLOCK_BYTES];
    block[..key.len()].copy_from_slice(key);
    block
}

#[tactic(auto, unfolding(crate::specs::Guest::masked))]
fn masked(mask: u8, block: &[u8; BLOCK_BYTES]) -> [u8; BLOCK_BYTES]
    ensures { result ≡ masked mask block.now }
{
    let mut out = *block;
    for i in 0..BLOCK_BYTES {
        out[i] ^= mask;
    }
    out
}

// The sum of two texts, one behind the other.
fn sum_of_both(first: &[u8], second: &[u8]) -> [u8; 32]
    ensures { result ≡ sha256 (first.now ++ second.now) }
{
    let mut hasher = Sha256::new();
    hasher.update(first);
    hasher.update(second);
    hasher.finalize()
}

// Adds what is shown to what is summed.
#[tactic(auto, unfolding(crate::specs::Guest::claim))]
fn add_claim(hasher: &mut Sha256, role: Role, theirs: &Digits, ours: &Digits)
    ensures { (m : List ℕ) → Holds256 hasher.old m → Holds256 hasher.new (m ++ claim role theirs.now ours.now) }
{
    hasher.update(role.word());
    hasher.update(theirs.as_slice());
    hasher.update(b" ".as_slice());
    hasher.update(ours.as_slice());
}

// The HMAC-SHA-256 under a token of what is shown.
#[tactic(auto, unfolding(crate::specs::Guest::hmac))]
fn sum_of_claim(token: &[u8], role: Role, theirs: &Digits, ours: &Digits) -> [u8; 32]
    ensures { result ≡ hmac token.now (claim role theirs.now ours.now) }
{
    let block = key_block(token);
    let mut hasher = Sha256::new();
    hasher.update(masked(INNER_MASK, &block).as_slice());
    add_claim(&mut hasher, role, theirs, ours);
    let inner = hasher.finalize();
    sum_of_both(&masked(OUTER_MASK, &block), &inner)
}

// The proof of one in a role.
#[tactic(auto, unfolding(crate::specs::Guest::proof))]
fn proof_of(token: &[u8], role: Role, theirs: &Digits, ours: &Digits) -> Digits
    ensures { result ≡ proof token.now role theirs.now ours.now }
{
    nonce_of(&sum_of_claim(token, role, theirs, ours))
}

// Whether two texts are the same. All bytes are looked at, so that the time it takes doesn't say where they differ.
fn is_same(said: &[u8], wanted: &Digits) -> bool
    ensures { result ≡ bytes_eq said.now wanted.now }
{
    if said.len() != DIGITS {
        return false;
    }
    let mut differs = false;
    for i in 0..DIGITS {
        differs |= said[i] != wanted[i];
    }
    !differs
}

#[tactic(auto, unfolding(crate::specs::Guest::is_nonce))]
fn is_nonce(text: &[u8]) -> bool
    ensures { result ≡ is_nonce text.now }
{
    text.len() == DIGITS && are_digits(text)
}

fn are_digits(text: &[u8]) -> bool
    ensures { result ≡ list_all is_low_digit text.now }
{
    text.iter().all(|b| is_low_digit(*b))
}

fn is_low_digit(b: u8) -> bool
    ensures { result ≡ is_low_digit b }
{
    matches!(b, b'0'..=b'9' | b'a'..=b'f')
}

// A nonce, where the text is one.
#[tactic(auto, unfolding(crate::specs::Guest::is_nonce))]
fn as_nonce(text: &[u8]) -> Option<Digits>
    ensures { result ≡ (if is_nonce text.now then Some text.now else None) }
{
    if !is_nonce(text) {
        return None;
    }
    let mut nonce = [0; DIGITS];
    nonce.copy_from_slice(text);
    Some(nonce)
}

// Of `bb VERSION ..` the version, and what stands behind it.
#[tactic(auto, unfolding(crate::specs::Guest::hello_in))]
fn hello_in(line: &[u8]) -> Option<(&[u8], &[u8])>
    ensures { option_map (λ cut. (cut.0.now, cut.1.now)) result ≡ hello_in line.now }
{
    let (word, rest) = cut_at(b' ', line)?;
    if word == b"bb".as_slice() {
        cut_at(b' ', rest)
    } else {
        None
    }
}

/// The nonce of a coordinator that says this first, without its newline; or why it isn't worked for.
#[tactic(auto, unfolding(crate::specs::Guest::greeted))]
pub fn greeted(version: &[u8], line: &[u8]) -> Result<Digits, Refusal>
    ensures { result ≡ greeted version.now line.now }
{
    let Some((theirs, nonce)) = hello_in(line) else {
        return Err(Refusal::Strange);
    };
    if theirs != version {
        return Err(Refusal::OtherVersion);
    }
    match as_nonce(nonce) {
        Some(nonce) => Ok(nonce),
        None => Err(Refusal::Strange),
    }
}

/// Whether a coordinator that says this line, without its newline, has the token.
pub fn is_answer(token: &[u8], theirs: &Digits, ours: &Digits, line: &[u8]) -> bool
    ensures { result ≡ bytes_eq line.now (proof token.now Role.Coordinator theirs.now ours.now) }
{
    is_same(line, &proof_of(token, Role::Coordinator, theirs, ours))
}

// The nonce of a worker that shows the token.
#[tactic(auto, unfolding(crate::specs::Guest::letter_in))]
fn letter_in(token: &[u8], version: &[u8], theirs: &Digits, line: &[u8]) -> Result<Digits, Refusal>
    ensures { result ≡ letter_in token.now version.now theirs.now line.now }
{
    let Some((its_version, rest)) = hello_in(line) else {
        return Err(Refusal::Strange);
    };
    if its_version != version {
        return Err(Refusal::OtherVersion);
    }
    shown_in(token, theirs, rest)
}

// Of `NONCE PROOF` the nonce, where it is proved.
fn shown_in(token: &[u8], theirs: &Digits, text: &[u8]) -> Result<Digits, Refusal>
    ensures { result ≡ proved_by token.now theirs.now (cut_at 32 text.now) }
{
    let Some((nonce, shown)) = cut_at(b' ', text) else {
        return Err(Refusal::Strange);
    };
    let Some(ours) = as_nonce(nonce) else {
        return Err(Refusal::Strange);
    };
    if is_same(shown, &proof_of(token, Role::Worker, theirs, &ours)) {
        Ok(ours)
    } else {
        Err(Refusal::WrongProof)
    }
}

// Appends what a coordinator says first, and a worker's line begins with.
#[tactic(auto, unfolding(crate::specs::Guest::greeting))]
fn append_greeting(version: &[u8], nonce: &Digits, out: &mut Vec<u8>) -> Result<(), NoMemory>
    ensures { OnOk result (out.new.items ≡ out.old.items ++ greeting version.now nonce.now) }
{
    out.extend_from_slice(b"bb ")?;
    out.extend_from_slice(version)?;
    out.extend_from_slice(b" ")?;
    out.extend_from_slice(nonce)
}

/// The line of a worker that has the token, with its newline.
#[tactic(auto, unfolding(crate::specs::Guest::letter))]
pub fn letter(
    alloc: Global,
    token: &[u8],
    version: &[u8],
    theirs: &Digits,
    ours: &Digits,
) -> Result<Vec<u8>, NoMemory>
    ensures { IfOk result (λ line. line.items ≡ letter token.now version.now theirs.now ours.now ++ codes "\n") }
{
    let mut line = Vec::new(alloc);
    append_greeting(version, ours, &mut line)?;
    line.extend_from_slice(b" ")?;
    line.extend_from_slice(&proof_of(token, Role::Worker, theirs, ours))?;
    line.extend_from_slice(b"\n")?;
    Ok(line)
}

/// One who has connected with a coordinator, and hasn't shown yet that it has the token.
#[derive(Drop)]
pub struct Guest {
    nonce: Digits,
    come: Vec<u8>,
}

impl Model for Guest {
    ghost use Rattle.peers.specs.Guest.{Welcomed};

    ghost Value = { Welcomed };

    ghost view = { λ a. record { nonce = a.nonce; come = a.come.items } };
}

impl Guest {
    /// One who was given this nonce, and has sent nothing yet.
    pub fn new(alloc: Global, nonce: Digits) -> Guest
        ensures { result ≡ record { nonce = nonce; come = [] } }
    {
        Guest {
            nonce,
            come: Vec::new(alloc),
        }
    }

    /// What it is told first, with its newline.
    pub fn greeting(&self, alloc: Global, version: &[u8]) -> Result<Vec<u8>, NoMemory>
        ensures { IfOk result (λ line. line.items ≡ greeting version.now self.now.nonce ++ codes "\n") }
    {
        let mut line = Vec::new(alloc);
        append_greeting(version, &self.nonce, &mut line)?;
        line.extend_from_slice(b"\n")?;
        Ok(line)
    }

    /// What it comes to that this piece has come. An answer is sent with a newline; behind the bytes that were taken stands its
    /// first frame.
    #[tactic(auto, using(crate::proofs::Guests::no_line_yet), unfolding(crate::specs::Guest::heard))]
    pub fn hear(&mut self, token: &[u8], version: &[u8], piece: &[u8]) -> Result<Heard, NoMemory>
        ensures heard { IfOk result (λ it. it ≡ heard token.now version.now self.old piece.now) }
        ensures shown { cut_at 10 self.old.come ≡ None
            → IfOk result (ShowsWhere token.now version.now self.old piece.now) }
        ensures more { result ≡ Ok Heard.More → cut_at 10 self.new.come ≡ None }
        ensures come { OnOk result (self.new ≡ record self.old { come = self.old.come ++ piece.now }) }
    {
        let before = self.come.len();
        self.come.extend_from_slice(piece)?;
        Ok(heard_in(token, version, &self.nonce, before, &self.come))
    }
}

// What it comes to that all this has come, so many bytes of it before.
fn heard_in(token: &[u8], version: &[u8], theirs: &Digits, before: usize, come: &[u8]) -> Heard
    requires { length come.now < 2 ^ 63 }
    ensures { result ≡ heard_in token.now version.now theirs.now before (length come.now) (cut_at 10 come.now) }
{
    let Some((line, _)) = cut_at(b'\n', come) else {
        return if come.len() < MAX_GUEST_BYTES {
            Heard::More
        } else {
            Heard::Refused(Refusal::Strange)
        };
    };
    if line.len() >= MAX_GUEST_BYTES {
        return Heard::Refused(Refusal::Strange);
    }
    match letter_in(token, version, theirs, line) {
        Ok(ours) => Heard::Shown {
            taken: (line.len() + 1).saturating_sub(before),
            answer: proof_of(token, Role::Coordinator, theirs, &ours),
        },
        Err(why) => Heard::Refused(why),
    }
}
