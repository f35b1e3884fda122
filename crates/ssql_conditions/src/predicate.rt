//! What predicates ask of a row.

ghost use Rattle.std.specs.Prelude.{◌≡◌, IfOk};

use item_list::Items;
use ssql_tokens::ComparisonOperator;
use std::alloc::{AllocError, Global};

/// A column whose values are numbers.
#[derive(Clone, Copy, Debug, PartialEq, Eq)]
pub enum NumberColumn {
    /// The generation time, in milliseconds since 1970.
    Gentime,
    /// The second part of the key.
    SeqNum,
    /// The reception time, in milliseconds since 1970.
    Rectime,
    /// The number of the link.
    Link,
    /// The APID of the packet.
    Apid,
    /// Octets of the packet.
    Length,
}

/// How a number is tested.
#[derive(Debug, Drop)]
pub enum NumberTest {
    /// Compared with a number.
    Compare(ComparisonOperator, i64),
    /// One of these numbers.
    In(Items<i64>),
}

/// How a packet name is tested, by its number. `None` is a name that no packet has.
#[derive(Debug, Drop)]
pub enum NameTest {
    /// That name.
    Is(Option<u16>),
    /// Another name.
    IsNot(Option<u16>),
    /// One of these names.
    In(Items<Option<u16>>),
}

/// A test of one column of a row.
#[derive(Debug, Drop)]
pub enum TypedPredicate {
    /// A column of numbers.
    Number(NumberColumn, NumberTest),
    /// The name of the packet.
    Pname(NameTest),
}

impl NumberTest {
    /// An equal test.
    fn copy(&self, alloc: Global) -> Result<NumberTest, AllocError>
        ensures { IfOk result (λ copy. copy ≡ self.now) }
    {
        match self {
            NumberTest::Compare(operator, number) => Ok(NumberTest::Compare(*operator, *number)),
            NumberTest::In(numbers) => {
                let numbers = numbers.copy(alloc)?;
                Ok(NumberTest::In(numbers))
            }
        }
    }
}

impl NameTest {
    /// An equal test.
    fn copy(&self, alloc: Global) -> Result<NameTest, AllocError>
        ensures { IfOk result (λ copy. copy ≡ self.now) }
    {
        match self {
            NameTest::Is(number) => Ok(NameTest::Is(*number)),
            NameTest::IsNot(number) => Ok(NameTest::IsNot(*number)),
            NameTest::In(numbers) => {
                let numbers = numbers.copy(alloc)?;
                Ok(NameTest::In(numbers))
            }
        }
    }
}

impl TypedPredicate {
    /// An equal predicate.
    pub(crate) fn copy(&self, alloc: Global) -> Result<TypedPredicate, AllocError>
        ensures { IfOk result (λ copy. copy ≡ self.now) }
    {
        match self {
            TypedPredicate::Number(column, test) => {
                let test = test.copy(alloc)?;
                Ok(TypedPredicate::Number(*column, test))
            }
            TypedPredicate::Pname(test) => {
                let test = test.copy(alloc)?;
                Ok(TypedPredicate::Pname(test))
            }
        }
    }
}
