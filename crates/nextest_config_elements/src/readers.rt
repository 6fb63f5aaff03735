//! Which type reads the values of a shape.

ghost use Rattle.std.specs.Prelude.{Option};
ghost use Rattle.toml.specs.Data.{Data};
ghost use Rattle.nextest_config_values.specs.Read.{Reading};
ghost use Rattle.nextest_config_elements.specs.Readers.{IsAnswer, reader_of};

use crate::field::Shape;
use crate::junit::JunitFlakyFailStatus;
use crate::leak_timeout::{LeakTimeout, LeakTimeoutResult};
use crate::max_fail::{MaxFail, MaxFailCount, TerminateMode};
use crate::priority::TestPriority;
use crate::profile_setting::ProfileSetting;
use crate::report_skip_policy::ReportSkipPolicy;
use crate::retry_policy::{Backoff, FlakyResult, RetryPolicy};
use crate::slow_timeout::{SlowTimeout, SlowTimeoutResult};
use crate::test_threads::TestThreads;
use crate::threads_required::ThreadsRequired;
use nextest_config_values::read::NonZeroCount;
use std::time::Duration;

/// What is done with the type that reads a value.
pub trait ReaderVisitor: Sized {
    type Output;

    // What has to hold before.
    ghost is_ready: { Self → Type 0 };

    // What is answered for a type, by what is seen of that and its reading.
    ghost answers: { (X Y : Type 0) → (X → Y) → Reading Data (Option Y) → Self → Self.Output
        → Type 0 };

    // What is answered where no type reads the value.
    ghost answers_unread: { Self → Self.Output → Type 0 };

    /// Answers for a type that reads the value.
    fn visit<T: ProfileSetting>(self) -> Self::Output
        requires { is_ready self }
        ensures { answers T T.Seen T.seen T.reading self result };

    /// Answers where no type reads it.
    fn visit_unread(self) -> Self::Output
        requires { is_ready self }
        ensures { answers_unread self result };
}

/// What the visitor answers for the type that reads the values of a shape.
pub fn visit_reader<V: ReaderVisitor>(shape: Shape, visitor: V) -> V::Output
    requires { V.is_ready visitor }
    ensures { IsAnswer V.answers V.answers_unread (reader_of shape) visitor result }
{
    match shape {
        Shape::Retries => visitor.visit::<RetryPolicy>(),
        Shape::Backoff => visitor.visit::<Backoff>(),
        Shape::FlakyResult => visitor.visit::<FlakyResult>(),
        Shape::ThreadsRequired => visitor.visit::<ThreadsRequired>(),
        Shape::FailFast => visitor.visit::<MaxFail>(),
        Shape::MaxFail => visitor.visit::<MaxFailCount>(),
        Shape::TerminateMode => visitor.visit::<TerminateMode>(),
        Shape::SlowTimeout => visitor.visit::<SlowTimeout>(),
        Shape::SlowTimeoutResult => visitor.visit::<SlowTimeoutResult>(),
        Shape::LeakTimeout => visitor.visit::<LeakTimeout>(),
        Shape::LeakTimeoutResult => visitor.visit::<LeakTimeoutResult>(),
        Shape::Duration | Shape::ShortDuration => visitor.visit::<Duration>(),
        Shape::Priority => visitor.visit::<TestPriority>(),
        Shape::Boolean => visitor.visit::<bool>(),
        Shape::U32 => visitor.visit::<u32>(),
        Shape::Count => visitor.visit::<NonZeroCount>(),
        Shape::ReportSkipPolicy => visitor.visit::<ReportSkipPolicy>(),
        Shape::FlakyFailStatus => visitor.visit::<JunitFlakyFailStatus>(),
        Shape::Threads => visitor.visit::<TestThreads>(),
        // A text among these, which is judged without a copy.
        _ => visitor.visit_unread(),
    }
}
