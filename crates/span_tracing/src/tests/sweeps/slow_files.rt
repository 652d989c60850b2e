// A slow model of one sink over a folder that refuses some calls: each file that was ever made stands in a list.

use crate::tests::random::Dice;
use crate::{FolderFault, InitContext};
use std::alloc::Global;
use std::test::Fail;

/// What a sink's files are, and whether its lines wait in a queue.
#[derive(Clone, Copy)]
pub(crate) struct SinkPlan {
    pub(crate) by_hour: bool,
    /// How many files stay; 0 for all.
    pub(crate) limit: usize,
    pub(crate) has_link: bool,
    /// The limit of its queue, and whether that is lossy.
    pub(crate) queue: Option<(usize, bool)>,
    /// Names of files that stand there before the opening, each with its own name as its text.
    pub(crate) found: &'static [&'static str],
}

/// Which calls of a folder are refused, and which writes take at most so many bytes: those with numbers from the first to the last. One
/// more call may be refused, and with a seed some are, and some are cut short, as dice fall.
#[derive(Clone, Copy)]
pub(crate) struct Plan {
    pub(crate) refused: (u64, u64),
    pub(crate) again: u64,
    pub(crate) short: (u64, u64),
    pub(crate) most: usize,
    pub(crate) seed: u64,
}

fn lies_in(number: u64, window: (u64, u64)) -> bool {
    window.0 <= number && number <= window.1
}

/// One of four calls, which look random and are the same in each run.
fn is_drawn(seed: u64, number: u64) -> bool {
    let mut dice = Dice {
        state: seed.wrapping_mul(1_000) + number,
    };
    dice.roll(4) + dice.roll(4) == 3
}

impl Plan {
    /// Nothing is refused or cut short.
    pub(crate) const NOTHING: Plan = Plan {
        refused: (0, 0),
        again: 0,
        short: (0, 0),
        most: 0,
        seed: 0,
    };

    pub(crate) fn refuses(&self, number: u64) -> bool {
        let is_unlucky = self.seed > 0 && is_drawn(self.seed, number);
        is_unlucky || lies_in(number, self.refused) || number == self.again
    }

    pub(crate) fn cuts(&self, number: u64) -> bool {
        let is_unlucky = self.seed > 0 && is_drawn(!self.seed, number);
        is_unlucky || lies_in(number, self.short)
    }
}

#[derive(Drop)]
pub(crate) struct SlowFile {
    pub(crate) name: String,
    pub(crate) stands: bool,
    pub(crate) bytes: Vec<u8>,
}

/// What was counted of a sink: openings, retention's calls and lines that failed, and the last fault.
#[derive(Clone, Copy, Debug, PartialEq, Eq)]
pub(crate) struct Counted {
    pub(crate) switches: usize,
    pub(crate) retentions: usize,
    pub(crate) writes: usize,
    pub(crate) last: Option<FolderFault>,
}

#[derive(Drop)]
pub(crate) struct SlowFiles {
    alloc: Global,
    sink: SinkPlan,
    plan: Plan,
    pub(crate) calls: u64,
    pub(crate) failures: u64,
    pub(crate) counted: Counted,
    pub(crate) files: Vec<SlowFile>,
    /// The place of the file that the link leads to.
    pub(crate) linked: Option<usize>,
    current: usize,
    period: i64,
}

/// The number of the hour or day that a second lies in.
fn period_of(sink: &SinkPlan, second: i64) -> i64 {
    second / if sink.by_hour { 3_600 } else { 86_400 }
}

/// The name of the file of a second of 2020-02-01 or of February 2025.
fn name_at(alloc: Global, sink: &SinkPlan, second: i64) -> Result<String, Fail> {
    let period = period_of(sink, second);
    Ok(if sink.by_hour {
        format!(in alloc; "t.2020-02-01-{}", period - 439_032)?
    } else {
        format!(in alloc; "app.2025-02-{}", period - 20_119)?
    })
}

/// Whether retention looks at a file. Names with dates have one length, so older ones come first in byte order.
fn is_dated(sink: &SinkPlan, name: &str) -> bool {
    if sink.by_hour {
        name.len() == 15 && name.starts_with("t.2020-02-01-")
    } else {
        name.len() == 14 && name.starts_with("app.2025-02-")
    }
}

impl SlowFiles {
    pub(crate) fn new(alloc: Global, sink: SinkPlan, plan: Plan) -> Result<SlowFiles, Fail> {
        let mut files = Vec::new(alloc);
        for name in sink.found {
            files.push(SlowFile {
                name: String::from_str(alloc, name)?,
                stands: true,
                bytes: Vec::from_slice(alloc, name.as_bytes())?,
            })?;
        }
        Ok(SlowFiles {
            alloc,
            sink,
            plan,
            calls: 0,
            failures: 0,
            counted: Counted {
                switches: 0,
                retentions: 0,
                writes: 0,
                last: None,
            },
            files,
            linked: None,
            current: 0,
            period: 0,
        })
    }

    /// Makes a call, and answers whether it is refused.
    fn is_refused(&mut self) -> bool {
        self.calls += 1;
        let is_refused = self.plan.refuses(self.calls);
        if is_refused {
            self.failures += 1;
        }
        is_refused
    }

    /// Opens the file of the second's period at the building, and answers what was refused.
    pub(crate) fn build(&mut self, second: i64) -> Result<Option<InitContext>, Fail> {
        self.period = period_of(&self.sink, second);
        match self.open(second)? {
            Ok(place) => {
                self.current = place;
                Ok(None)
            }
            Err(context) => Ok(Some(context)),
        }
    }

    /// Runs retention and opens the file of the second's period. Answers its place, or what was refused.
    fn open(&mut self, second: i64) -> Result<Result<usize, InitContext>, Fail> {
        self.prune()?;
        if self.is_refused() {
            if self.is_refused() {
                return Ok(Err(InitContext::Directory));
            }
            if self.is_refused() {
                return Ok(Err(InitContext::File));
            }
        }
        let place = self.place_of(second)?;
        if self.sink.has_link {
            if self.is_refused() {
                let _closed = self.is_refused();
                return Ok(Err(InitContext::Link));
            }
            self.linked = Some(place);
        }
        Ok(Ok(place))
    }

    /// The place of the file of the second's period, which is made where none of its name stands.
    fn place_of(&mut self, second: i64) -> Result<usize, Fail> {
        let name = name_at(self.alloc, &self.sink, second)?;
        for (place, file) in self.files.iter().enumerate() {
            if file.stands && file.name.as_str() == name.as_str() {
                return Ok(place);
            }
        }
        self.files.push(SlowFile {
            name,
            stands: true,
            bytes: Vec::new(self.alloc),
        })?;
        Ok(self.files.len() - 1)
    }

    fn fails_in_retention(&mut self) {
        self.counted.retentions += 1;
        self.counted.last = Some(FolderFault::Refused);
    }

    /// Removes the oldest files, so that fewer than the limit stay.
    fn prune(&mut self) -> Result<(), Fail> {
        if self.sink.limit == 0 {
            return Ok(());
        }
        if self.is_refused() {
            self.fails_in_retention();
            return Ok(());
        }
        for place in self.doomed()? {
            if self.is_refused() {
                self.fails_in_retention();
            } else {
                self.files[place].stands = false;
            }
        }
        Ok(())
    }

    fn is_candidate(&self, place: usize) -> bool {
        let file = &self.files[place];
        file.stands && is_dated(&self.sink, file.name.as_str())
    }

    /// How many files that retention looks at are older than the one at the place, or of all ages where there is no such one.
    fn older_than(&self, place: Option<usize>) -> usize {
        let mut count = 0;
        for other in 0..self.files.len() {
            let is_older = place.is_none_or(|it| self.files[other].name.as_str()
                < self.files[it].name.as_str());
            if is_older && self.is_candidate(other) {
                count += 1;
            }
        }
        count
    }

    /// The places of the files that go.
    fn doomed(&self) -> Result<Vec<usize>, Fail> {
        let mut doomed = Vec::new(self.alloc);
        let all = self.older_than(None);
        for place in 0..self.files.len() {
            let goes = self.older_than(Some(place)) + self.sink.limit < all + 1;
            if goes && self.is_candidate(place) {
                doomed.push(place)?;
            }
        }
        Ok(doomed)
    }

    /// Hands a line over at a second: the file changes where the period of each line before is over. Answers whether the line was
    /// written whole.
    pub(crate) fn hand(&mut self, line: &str, second: i64) -> Result<bool, Fail> {
        let period = period_of(&self.sink, second);
        if period > self.period {
            self.period = period;
            match self.open(second)? {
                Ok(place) => {
                    self.current = place;
                    let _closed = self.is_refused();
                }
                Err(_) => {
                    self.counted.switches += 1;
                    self.counted.last = Some(FolderFault::Refused);
                }
            }
        }
        self.write(line.as_bytes())
    }

    /// Writes until all is taken, or a write fails.
    fn write(&mut self, line: &[u8]) -> Result<bool, Fail> {
        let mut from = 0;
        while from < line.len() {
            if self.is_refused() {
                return Ok(self.fails_in_write(FolderFault::Refused));
            }
            let mut taken = line.len() - from;
            if self.plan.cuts(self.calls) {
                taken = taken.min(self.plan.most);
            }
            if taken == 0 {
                return Ok(self.fails_in_write(FolderFault::WriteZero));
            }
            let file = &mut self.files[self.current];
            file.bytes.extend_from_slice(&line[from..from + taken])?;
            from += taken;
        }
        Ok(true)
    }

    fn fails_in_write(&mut self, fault: FolderFault) -> bool {
        self.counted.writes += 1;
        self.counted.last = Some(fault);
        false
    }

    /// Flushes the file; what that answers is passed over.
    pub(crate) fn flush(&mut self) {
        let _flushed = self.is_refused();
    }

    /// The places of the files that stand, in byte order of their names.
    pub(crate) fn standing(&self, alloc: Global) -> Result<Vec<usize>, Fail> {
        let mut places = Vec::new(alloc);
        for (place, file) in self.files.iter().enumerate() {
            if file.stands {
                let before = places
                    .iter()
                    .filter(|it| self.files[**it].name.as_str() < file.name.as_str())
                    .count();
                places.insert(before, place)?;
            }
        }
        Ok(places)
    }

    /// A line is lost in front of the files.
    pub(crate) fn lose(&mut self) {
        self.counted.writes += 1;
    }
}
