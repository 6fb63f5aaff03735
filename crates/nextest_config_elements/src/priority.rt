//! The priority of tests.

ghost use Rattle.std.specs.Prelude.{◌≡◌, ◌↔◌, IfErr, IfOk, IsOk, pos, refl, Some};
ghost use Rattle.std.proofs.Common.{rules};
ghost use Rattle.std.specs.Cmp.Rules.{comparing};
ghost use Rattle.std.specs.Ordering.{int_cmp};
ghost use Rattle.nextest_config_elements.specs.Priority.{IsPriority, priority_reading};

use nextest_config_values::read::{FaultKind, FromToml, Rule, ValueFault};
use std::alloc::Global;
use std::cmp::Ordering;
use std::marker::Model;
use thiserror::Error;
use toml::Value;

/// The priority of a test, from -100 to 100. Greater priorities come first.
#[derive(Clone, Copy, Debug, PartialEq, Eq, Hash)]
pub struct TestPriority(i8);

/// A number that is no priority.
#[derive(Clone, Copy, Debug, PartialEq, Eq, Error)]
#[error("priority {priority} must be between -100 and 100")]
pub struct TestPriorityOutOfRange {
    pub priority: i8,
}

impl Model for TestPriority {
    ghost use Rattle.std.specs.Prelude.{ℤ};
    ghost use Rattle.nextest_config_elements.specs.Priority.{IsPriority};

    ghost Value = { ℤ };

    ghost view = { λ it. it.0 };

    ghost invariant = { λ it. IsPriority it.0 };

    ghost inverse = { λ priority. record { 0 = priority } };
}

impl TestPriority {
    /// The priority with this number.
    pub fn new(priority: i8) -> Result<Self, TestPriorityOutOfRange>
        ensures accepted { IsOk result ↔ IsPriority priority }
        ensures value { IfOk result (λ it. it ≡ priority) }
        ensures refused { IfErr result (λ error. error.priority ≡ priority) }
    {
        if (-100..=100).contains(&priority) {
            Ok(TestPriority(priority))
        } else {
            Err(TestPriorityOutOfRange { priority })
        }
    }

    /// The number of the priority.
    pub fn to_i8(self) -> i8
        ensures value { result ≡ self }
        ensures range { IsPriority result }
    {
        self.0
    }
}

impl Default for TestPriority {
    ghost is_default = { λ it. it ≡ pos 0 };

    fn default() -> Self {
        TestPriority(0)
    }
}

impl PartialOrd for TestPriority {
    ghost partial_cmp = { λ a b. Some (int_cmp b a) };

    ghost laws = { Prim.search (comparing, rules) };

    fn partial_cmp(&self, other: &TestPriority) -> Option<Ordering> {
        Some(self.cmp(other))
    }
}

impl Ord for TestPriority {
    ghost cmp = { λ a b. int_cmp b a };

    ghost total = { Prim.search (comparing, rules) };

    ghost matches_partial_cmp = { λ a b. refl };

    ghost matches_eq = { Prim.search (comparing, rules) };

    fn cmp(&self, other: &TestPriority) -> Ordering {
        other.0.cmp(&self.0)
    }
}

impl FromToml for TestPriority {
    ghost Seen = { Self };

    ghost seen = { λ priority. priority };

    ghost reading = { priority_reading };

    fn read_value(alloc: Global, value: &Value) -> Result<Self, ValueFault> {
        let Some(number) = value.as_integer() else {
            return Err(ValueFault::invalid_type(alloc, value, "i8"));
        };
        let Ok(number) = i8::try_from(number) else {
            return Err(ValueFault::invalid_value(alloc, value, "i8"));
        };
        match TestPriority::new(number) {
            Ok(priority) => Ok(priority),
            Err(TestPriorityOutOfRange { priority }) => {
                let rule = Rule::Priority { priority };
                Err(ValueFault::new(alloc, FaultKind::Custom(rule)))
            }
        }
    }
}
