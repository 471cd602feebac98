// Identities of cases, items and runs.
ghost use Rattle.std.specs.Prelude.{◌≡◌, ◌↔◌, ◌+◌, ◌*◌, ◌-◌, ◌<◌, ◌≤◌, [], ◌∷◌, ◌++◌, List, ℕ, length, true, IfOk, OnOk, Err, MatchOption, string_bytes};
ghost use Rattle.std.specs.Fmt.{decimal};
ghost use Rattle.std.specs.List.{list_all};
ghost use Rattle.std.specs.Option.{SomeIff};
ghost use Rattle.yw_base.specs.Identity.{SpellsIdentity, case_number, dotted, is_identity, is_number, most_numbers, number_end, parent, under};

use crate::Text;
use std::alloc::{AllocError, Global};
use std::cmp::Ordering;
use std::marker::Model;

/// Why a text isn't read as an identity.
#[derive(Clone, Copy, Debug, PartialEq, Eq)]
pub enum IdentFault {
    /// The text isn't written as an identity is.
    Shape,
    /// No memory was left.
    Memory,
}

/// 1 to 40 numbers from 1 to 2^48 - 1. A contract sees it as the list of its numbers.
#[derive(Debug, Drop)]
pub struct Ident {
    numbers: Vec<u64>,
}

impl Model for Ident {
    ghost use Rattle.std.specs.Prelude.{List, ℕ, ◌≡◌, true};
    ghost use Rattle.yw_base.specs.Identity.{is_identity};

    ghost Value = { List ℕ };

    ghost view = { λ i. i.numbers.items };

    ghost invariant = { λ i. is_identity i.numbers.items ≡ true };
}

/// The most numbers that an identity has.
const MOST_NUMBERS: usize = 40;

/// The first number that is too large for an identity, 2^48.
pub const NUMBER_END: u64 = 0x1_0000_0000_0000;

/// Up to 40 numbers, which take no memory. A contract sees them as a list.
#[derive(Drop)]
struct Numbers {
    numbers: [u64; 40],
    count: usize,
}

impl Model for Numbers {
    ghost use Rattle.std.specs.Prelude.{List, ℕ, ◌≤◌, take};

    ghost Value = { List ℕ };

    ghost view = { λ n. take n.count n.numbers };

    ghost invariant = { λ n. n.count ≤ 40 };
}

impl Numbers {
    fn new() -> Numbers
        ensures { result ≡ [] }
    {
        Numbers {
            numbers: [0; 40],
            count: 0,
        }
    }

    fn len(&self) -> usize
        ensures { result ≡ length self.now }
    {
        self.count
    }

    fn push(&mut self, number: u64)
        requires { length self.old < most_numbers }
        ensures { self.new ≡ self.old ++ number ∷ [] }
    {
        self.numbers[self.count] = number;
        self.count += 1;
    }

    fn as_slice(&self) -> &[u64]
        ensures { result.now ≡ self.now }
    {
        &self.numbers[..self.count]
    }
}

/// A number with one digit more at its end, where that is a number of an identity. 0 stands for no digits
/// so far, so no number begins with the digit 0.
fn with_digit(number: u64, digit: u8) -> Option<u64>
    requires { number < number_end }
    ensures { SomeIff result ((48 ≤ digit) × (digit ≤ 57) × (is_number (number * 10 + (digit - 48)) ≡ true)) (number * 10 + (digit - 48)) }
{
    if !digit.is_ascii_digit() {
        return None;
    }
    let longer = number * 10 + u64::from(digit - b'0');
    if longer == 0 || longer >= NUMBER_END {
        return None;
    }
    Some(longer)
}

/// The numbers of an identity's text. It reads no further than to the first byte that is wrong.
fn read_numbers(text: &str) -> Option<Numbers>
    ensures { MatchOption result (SpellsIdentity text.now → ⊥) (λ numbers. (is_identity numbers ≡ true) × (text.now ≡ dotted numbers)) }
{
    let mut numbers = Numbers::new();
    let mut number = 0;
    for byte in text.as_bytes() {
        if *byte == b'.' {
            if number == 0 || numbers.len() + 1 >= MOST_NUMBERS {
                return None;
            }
            numbers.push(number);
            number = 0;
        } else {
            number = with_digit(number, *byte)?;
        }
    }
    if number == 0 {
        return None;
    }
    numbers.push(number);
    Some(numbers)
}

fn push_number(text: &mut String, number: u64) -> Result<(), AllocError>
    ensures { OnOk result (string_bytes text.new ≡ string_bytes text.old ++ decimal number) }
{
    write!(text, "{number}")
}

fn is_number(number: u64) -> bool
    ensures { result ≡ is_number number }
{
    0 < number && number < NUMBER_END
}

fn are_numbers(numbers: &[u64]) -> bool
    ensures { result ≡ list_all is_number numbers.now }
{
    numbers.iter().all(|number| is_number(*number))
}

fn is_identity(numbers: &[u64]) -> bool
    ensures { result ≡ is_identity numbers.now }
{
    if numbers.is_empty() || numbers.len() > MOST_NUMBERS {
        return false;
    }
    are_numbers(numbers)
}

impl Ident {
    /// Reads an identity. It is `Shape` exactly where the text isn't 1 to 40 decimal numbers from 1 to
    /// 2^48 - 1 without leading zeros, joined by single dots, and `Memory` only where the text is one and no
    /// memory was left. A text is looked at no further than to the first byte that is wrong.
    pub fn read(alloc: Global, text: &str) -> Result<Ident, IdentFault>
        // What is read is printed as it was written.
        ensures ok { IfOk result (λ ident. (is_identity ident ≡ true) × (dotted ident ≡ text.now)) }
        // What is printed is read as it was.
        ensures printed { (numbers : List ℕ) → is_identity numbers ≡ true → text.now ≡ dotted numbers → IfOk result (λ ident. ident ≡ numbers) }
        ensures shape { (result ≡ Err IdentFault.Shape) ↔ (SpellsIdentity text.now → ⊥) }
    {
        let Some(numbers) = read_numbers(text) else {
            return Err(IdentFault::Shape);
        };
        match Vec::from_slice(alloc, numbers.as_slice()) {
            Ok(numbers) => Ok(Ident { numbers }),
            Err(AllocError) => Err(IdentFault::Memory),
        }
    }

    /// The identity of one number, as a case has it. An `Err` says that no memory was left.
    pub fn of_number(alloc: Global, number: u64) -> Result<Ident, AllocError>
        requires { is_number number ≡ true }
        ensures { IfOk result (λ ident. ident ≡ number ∷ []) }
    {
        Ok(Ident {
            numbers: vec![in alloc; number]?,
        })
    }

    /// The identity of these numbers, or `None` where they are none's. It takes no memory.
    pub fn from_numbers(numbers: Vec<u64>) -> Option<Ident>
        ensures { SomeIff result (is_identity numbers.items ≡ true) numbers.items }
    {
        if !is_identity(&numbers) {
            return None;
        }
        Some(Ident { numbers })
    }

    /// This identity with one number more at its end. An `Err` says that no memory was left.
    pub fn child(&self, alloc: Global, number: u64) -> Result<Ident, AllocError>
        requires room { length self.now < most_numbers }
        requires number { is_number number ≡ true }
        ensures { IfOk result (λ ident. ident ≡ self.now ++ number ∷ []) }
    {
        let mut numbers = Vec::with_capacity(alloc, self.numbers.len() + 1)?;
        numbers.extend_from_slice(&self.numbers)?;
        numbers.push(number)?;
        Ok(Ident { numbers })
    }

    /// The identity without its last number, which is that of the net, item or case above; `None` for one
    /// number. An `Err` says that no memory was left.
    pub fn parent(&self, alloc: Global) -> Result<Option<Ident>, AllocError>
        ensures { IfOk result (λ above. SomeIff above (is_identity (parent self.now) ≡ true) (parent self.now)) }
    {
        let numbers = self.numbers();
        let above = Vec::from_slice(alloc, &numbers[..numbers.len() - 1])?;
        Ok(Ident::from_numbers(above))
    }

    /// The number of the case in which it lies, its first. It takes no memory.
    pub fn case_number(&self) -> u64
        ensures { result ≡ case_number self.now }
    {
        match self.numbers() {
            [number, ..] => *number,
            [] => 0,
        }
    }

    /// A copy. An `Err` says that no memory was left.
    pub fn copy(&self, alloc: Global) -> Result<Ident, AllocError>
        ensures { IfOk result (λ ident. ident ≡ self.now) }
    {
        Ok(Ident {
            numbers: Vec::from_slice(alloc, &self.numbers)?,
        })
    }

    /// The numbers in decimal with dots between them. An `Err` says that no memory was left.
    pub fn print(&self, alloc: Global) -> Result<Text, AllocError>
        ensures { IfOk result (λ text. text ≡ dotted self.now) }
    {
        let mut text = String::new(alloc);
        for (i, number) in self.numbers.iter().enumerate() {
            if i > 0 {
                text.push('.')?;
            }
            push_number(&mut text, *number)?;
        }
        Ok(Text::from_string(text))
    }

    /// The numbers.
    pub fn numbers(&self) -> &[u64]
        ensures numbers { result.now ≡ self.now }
        ensures identity { is_identity self.now ≡ true }
    {
        &self.numbers
    }

    /// All of `top` stands at its front. It takes no memory.
    pub fn is_under(&self, top: &Ident) -> bool
        ensures { result ≡ under self.now top.now }
    {
        self.numbers.starts_with(&top.numbers)
    }
}

impl PartialEq for Ident {
    ghost use Rattle.std.specs.Cmp.{partial_equiv_from_equiv};
    ghost use Rattle.std.specs.Cmp.Lexicographic.{nat_list_eq_equiv};
    ghost use Rattle.std.specs.Str.{bytes_eq};

    ghost eq = { bytes_eq };

    ghost laws = { partial_equiv_from_equiv nat_list_eq_equiv };

    fn eq(&self, other: &Ident) -> bool {
        self.numbers.as_slice() == other.numbers.as_slice()
    }
}

impl Eq for Ident {
    ghost use Rattle.std.specs.Cmp.Lexicographic.{nat_list_eq_equiv};

    ghost laws = { nat_list_eq_equiv };
}

impl PartialOrd for Ident {
    ghost use Rattle.std.specs.Prelude.{Some};
    ghost use Rattle.std.specs.Cmp.Lexicographic.{slice_cmp, texts_po};
    ghost use Rattle.std.specs.Ordering.{nat_cmp};

    ghost partial_cmp = { λ x y. Some (slice_cmp nat_cmp x y) };

    ghost laws = { texts_po };

    fn partial_cmp(&self, other: &Ident) -> Option<Ordering> {
        Some(self.cmp(other))
    }
}

/// The order of identities: number by number, and what is a front of the other first. It takes no memory.
impl Ord for Ident {
    ghost use Rattle.std.specs.Prelude.{refl};
    ghost use Rattle.std.specs.Cmp.Lexicographic.{nat_list_cmp_total, slice_cmp, texts_ties};
    ghost use Rattle.std.specs.Ordering.{nat_cmp};

    ghost cmp = { slice_cmp nat_cmp };

    ghost total = { nat_list_cmp_total };

    ghost matches_partial_cmp = { λ _ _. refl };

    ghost matches_eq = { texts_ties };

    fn cmp(&self, other: &Ident) -> Ordering {
        self.numbers.as_slice().cmp(other.numbers.as_slice())
    }
}
