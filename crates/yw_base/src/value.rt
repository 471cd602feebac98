// Values, their sorts and rows of them.
ghost use Rattle.std.specs.Prelude.{◌≡◌, IfOk};
ghost use Rattle.std.specs.List.{list_all};
ghost use Rattle.yw_base.specs.Values.{fits, has_sort, is_no_texts, is_short, is_small, meant, sort_of, value_of};

use crate::{Items, Text};
use std::alloc::{AllocError, Global};

/// The five sorts of values.
#[derive(Clone, Copy, Debug, PartialEq, Eq)]
pub enum Sort {
    /// `true` or `false`.
    Bool,
    /// A whole number from -2^63 to 2^63 - 1.
    Int,
    /// A text.
    Text,
    /// A list of whole numbers.
    Ints,
    /// A list of texts.
    Texts,
}

/// Whole numbers in order.
pub type IntList = Items<i64>;

/// Texts in order.
pub type TextList = Items<Text>;

/// A value that owns its texts and lists.
#[derive(Debug, Drop)]
pub enum Value {
    Bool(bool),
    Int(i64),
    Text(Text),
    Ints(IntList),
    Texts(TextList),
}

/// A value whose texts and lists stand elsewhere.
#[derive(Clone, Copy, Debug)]
pub enum Val<'a> {
    Bool(bool),
    Int(i64),
    Text(&'a str),
    Ints(&'a [i64]),
    Texts(&'a [Text]),
}

/// Values by number.
pub type Row = Items<Value>;

/// The most bytes of a text among values: our own limit.
pub const MOST_TEXT_BYTES: usize = 4096;

/// The most elements of a list among values: our own limit.
pub const MOST_ELEMENTS: usize = 1000;

fn is_short(text: &Text) -> bool
    ensures { result ≡ is_short text.now }
{
    text.as_str().len() <= MOST_TEXT_BYTES
}

fn are_short(texts: &[Text]) -> bool
    ensures { result ≡ list_all is_short texts.now }
{
    texts.iter().all(|text| is_short(text))
}

fn copy_texts(alloc: Global, texts: &[Text]) -> Result<TextList, AllocError>
    ensures { IfOk result (λ copy. copy ≡ texts.now) }
{
    let mut copy = Items::new(alloc);
    for text in texts {
        copy.push(Text::copy_of(alloc, text.as_str())?)?;
    }
    Ok(copy)
}

impl Value {
    /// Its sort.
    pub fn sort(&self) -> Sort
        ensures { result ≡ sort_of self.now }
    {
        match self {
            Value::Bool(_) => Sort::Bool,
            Value::Int(_) => Sort::Int,
            Value::Text(_) => Sort::Text,
            Value::Ints(_) => Sort::Ints,
            Value::Texts(_) => Sort::Texts,
        }
    }

    /// It is of this sort.
    pub fn has_sort(&self, sort: Sort) -> bool
        ensures { result ≡ has_sort self.now sort }
    {
        self.sort() == sort
    }

    /// It is the empty list where texts are wanted. From outside it comes as one of numbers.
    fn is_no_texts(&self, sort: Sort) -> bool
        ensures { result ≡ is_no_texts sort self.now }
    {
        match (sort, self) {
            (Sort::Texts, Value::Ints(ints)) => ints.is_empty(),
            _ => false,
        }
    }

    /// It means a value of this sort where it comes from outside: there an empty list is an empty list of numbers, and
    /// means one of texts too.
    pub fn fits(&self, sort: Sort) -> bool
        ensures { result ≡ fits self.now sort }
    {
        self.has_sort(sort) || self.is_no_texts(sort)
    }

    /// What it means where it comes from outside and a value of this sort is wanted: the empty list is one of texts where
    /// texts are wanted, and any other value is what it is. It is moved, and takes no memory.
    pub fn meant(self, alloc: Global, sort: Sort) -> Value
        ensures { result ≡ meant sort self }
    {
        if self.is_no_texts(sort) {
            return Value::Texts(Items::new(alloc));
        }
        self
    }

    /// It is within the limits of values: a text of at most 4,096 bytes, a list of at most 1,000 elements.
    pub fn is_small(&self) -> bool
        ensures { result ≡ is_small self.now }
    {
        match self {
            Value::Bool(_) | Value::Int(_) => true,
            Value::Text(text) => is_short(text),
            Value::Ints(ints) => ints.len() <= MOST_ELEMENTS,
            Value::Texts(texts) => texts.len() <= MOST_ELEMENTS && are_short(texts.as_slice()),
        }
    }

    /// The same value, lent. It takes no memory.
    pub fn lend(&self) -> Val<'_>
        ensures { value_of result ≡ self.now }
    {
        match self {
            Value::Bool(truth) => Val::Bool(*truth),
            Value::Int(int) => Val::Int(*int),
            Value::Text(text) => Val::Text(text.as_str()),
            Value::Ints(ints) => Val::Ints(ints.as_slice()),
            Value::Texts(texts) => Val::Texts(texts.as_slice()),
        }
    }

    /// A copy, which is equal. An `Err` says that no memory was left.
    pub fn copy(&self, alloc: Global) -> Result<Value, AllocError>
        ensures { IfOk result (λ copy. copy ≡ self.now) }
    {
        self.lend().to_value(alloc)
    }
}

impl Val<'_> {
    /// Its sort.
    pub fn sort(self) -> Sort
        ensures { result ≡ sort_of (value_of self.entry) }
    {
        match self {
            Val::Bool(_) => Sort::Bool,
            Val::Int(_) => Sort::Int,
            Val::Text(_) => Sort::Text,
            Val::Ints(_) => Sort::Ints,
            Val::Texts(_) => Sort::Texts,
        }
    }

    /// The same value, with its own texts and lists. An `Err` says that no memory was left.
    pub fn to_value(self, alloc: Global) -> Result<Value, AllocError>
        ensures { IfOk result (λ value. value ≡ value_of self.entry) }
    {
        match self {
            Val::Bool(truth) => Ok(Value::Bool(truth)),
            Val::Int(int) => Ok(Value::Int(int)),
            Val::Text(text) => Ok(Value::Text(Text::copy_of(alloc, text)?)),
            Val::Ints(ints) => Ok(Value::Ints(Items::from_vec(Vec::from_slice(alloc, ints)?))),
            Val::Texts(texts) => Ok(Value::Texts(copy_texts(alloc, texts)?)),
        }
    }
}
