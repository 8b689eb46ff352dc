//! The command `feed`: reads its words, runs the feeders, and writes the line that sums up the run.
ghost use Rattle.std.specs.Prelude.{◌≡◌, ◌∷◌, [], ℕ, Some, IfOk, IfSome};
ghost use Rattle.irq_feed.specs.declared.table_feed.FeedSums.{FeedSums};
ghost use Rattle.rng_tool.specs.FeedOutcome.{FeedEnds, FeedOf, IsFeed, IsSmallFeed, feed_line};
ghost use Rattle.tool_ends.specs.Ends.{CountsWriteFault};

use arrayvec::ArrayString;
use io_edges::{Gate, NoMemory, Sink};
use irq_feed::{FeedSums, feed_on_new_table};
use std::alloc::Global;
use std::sync::Wait;
use std::thread::Threads;
use tool_ends::numbers::CommandForm;
use tool_ends::short_lines::{ShortLine, add_number};
use tool_ends::{Status, put_line};

/// The most feeders of one run.
const MOST_FEEDERS: u32 = 16;

/// The most samples of each feeder.
const MOST_SAMPLES: u32 = 10_000;

/// The numbers of a run: each of `feeders` feeders has `samples` samples, numbered from `start` on.
#[derive(Clone, Copy, Debug, PartialEq, Eq)]
pub(crate) struct Feed {
    pub(crate) start: u32,
    pub(crate) feeders: u32,
    pub(crate) samples: u32,
}

/// The request that the words make, if they are `feed START FEEDERS SAMPLES`.
pub(crate) fn feed_of(words: &[String]) -> Option<Feed>
    ensures found { IfSome result (λ feed. IsFeed words.now feed.start feed.feeders feed.samples) }
    ensures only { (start feeders samples : ℕ) → IsFeed words.now start feeders samples
        → result ≡ Some (record { start = start; feeders = feeders; samples = samples }) }
{
    let form = CommandForm {
        name: "feed",
        first: (0, u32::MAX),
        second: (1, MOST_FEEDERS),
        third: (1, MOST_SAMPLES),
    };
    let (start, feeders, samples) = form.numbers(words)?;
    Some(Feed {
        start,
        feeders,
        samples,
    })
}

// The line that sums up a run: the number of feeders, and the sums of samples, dumps and bits.
fn feed_line(feeders: u32, sums: &FeedSums) -> ShortLine
    ensures { result.bytes ≡ feed_line feeders sums.now }
{
    let mut line = ArrayString::new();
    add_number(&mut line, "feeders ", u64::from(feeders));
    add_number(&mut line, " samples ", u64::from(sums.samples));
    add_number(&mut line, " dumps ", u64::from(sums.dumps));
    add_number(&mut line, " bits ", u64::from(sums.bits));
    line.push_str("\n");
    line
}

// Runs the feeders on a new table, and returns the line that sums up the run. It allocates nothing after the run.
fn summary<R: Threads + Wait + Sync, G: Gate>(
    rt: &R,
    alloc: Global,
    feed: Feed,
    gate: &G,
) -> Result<ShortLine, NoMemory>
    requires { IsSmallFeed feed }
    ensures { IfOk result (λ line. FeedOf feed.start feed.feeders feed.samples line.bytes) }
{
    let sums = feed_on_new_table(rt, alloc, feed.start, feed.feeders, feed.samples, gate)?;
    Ok(feed_line(feed.feeders, &sums))
}

/// Runs the feeders on a new table, and writes the line that sums up the run.
pub(crate) fn run_feed<R: Threads + Wait + Sync, K: Sink, G: Gate>(
    rt: &R,
    alloc: Global,
    feed: Feed,
    sink: &mut K,
    gate: &G,
) -> Status
    requires { IsSmallFeed feed }
    ensures ends { FeedEnds feed.start feed.feeders feed.samples result (K.held sink.old) (K.held sink.new) }
    ensures counted { CountsWriteFault result (K.faults sink.old) (K.faults sink.new) }
    ensures silent { result ≡ Status.NoMemory → sink.new ≡ sink.old }
{
    let Ok(line) = summary(rt, alloc, feed, gate) else {
        return Status::NoMemory;
    };
    put_line(Status::Done, &line, sink)
}
