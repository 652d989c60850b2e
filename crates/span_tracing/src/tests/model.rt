// A slow model of a stack of four outputs: each line is made anew from lists of spans and entries.

use std::alloc::{AllocError, Global};

/// How many outputs there are.
pub(crate) const OUTPUTS: usize = 4;

/// How many lanes there are.
pub(crate) const LANES: usize = 2;

/// Levels from ERROR to TRACE, as they stand in lines.
const LEVELS: [&str; 5] = ["ERROR", " WARN", " INFO", "DEBUG", "TRACE"];

/// How levels stand in JSON.
const JSON_LEVELS: [&str; 5] = ["ERROR", "WARN", "INFO", "DEBUG", "TRACE"];

/// The most verbose level that each output sees: full lines, compact ones, JSON and pretty ones.
pub(crate) const FILTERS: [usize; OUTPUTS] = [3, 2, 1, 0];

#[derive(Drop)]
struct ModelSpan {
    level: usize,
    x: u64,
    parent: Option<usize>,
    handles: u64,
    is_open: bool,
}

/// What a new span stands under.
#[derive(Clone, Copy, Debug)]
pub(crate) enum Under {
    /// The lane's current span, where there is one.
    Current,
    Nothing,
    /// The span at this place of the list.
    Span(usize),
}

/// An entry of a span on a lane. Only the first entry of a span on a lane keeps it open, and is looked at.
#[derive(Clone, Copy, Drop)]
struct Entry {
    span: usize,
    is_first: bool,
}

#[derive(Drop)]
pub(crate) struct Model {
    alloc: Global,
    spans: Vec<ModelSpan>,
    entries: Vec<Vec<Entry>>,
    pub(crate) texts: Vec<String>,
}

impl Model {
    pub(crate) fn new(alloc: Global) -> Result<Model, AllocError> {
        let mut model = Model {
            alloc,
            spans: Vec::new(alloc),
            entries: Vec::new(alloc),
            texts: Vec::new(alloc),
        };
        for _ in 0..LANES {
            model.entries.push(Vec::new(alloc))?;
        }
        for _ in 0..OUTPUTS {
            model.texts.push(String::new(alloc))?;
        }
        Ok(model)
    }

    pub(crate) fn count(&self) -> usize {
        self.spans.len()
    }

    pub(crate) fn is_open(&self, span: usize) -> bool {
        self.spans.get(span).is_some_and(|found| found.is_open)
    }

    /// The span that a lane is in.
    fn current(&self, lane: usize) -> Option<usize> {
        let mut found = None;
        for entry in &self.entries[lane] {
            if entry.is_first {
                found = Some(entry.span);
            }
        }
        found
    }

    /// The spans that an output sees of those that a span stands in, from the outermost to the span itself.
    fn seen_above(&self, output: usize, span: Option<usize>) -> Result<Vec<usize>, AllocError> {
        let mut seen = Vec::new(self.alloc);
        let mut next = span;
        while let Some(place) = next {
            if self.spans[place].level <= FILTERS[output] {
                seen.insert(0, place)?;
            }
            next = self.spans[place].parent;
        }
        Ok(seen)
    }

    /// The last span that the lane entered and the output sees.
    fn seen_current(&self, output: usize, lane: usize) -> Option<usize> {
        let mut found = None;
        for entry in &self.entries[lane] {
            if entry.is_first && self.spans[entry.span].level <= FILTERS[output] {
                found = Some(entry.span);
            }
        }
        found
    }

    pub(crate) fn event(&mut self, lane: usize, level: usize, n: u64) -> Result<(), AllocError> {
        for output in 0..OUTPUTS {
            if level <= FILTERS[output] {
                let spans = self.seen_above(output, self.seen_current(output, lane))?;
                let line = match output {
                    0 => self.full(level, &spans, Some(n))?,
                    1 => self.compact(level, &spans, n)?,
                    2 => self.json(level, &spans, n)?,
                    _ => self.pretty(level, &spans, n)?,
                };
                self.texts[output].push_str(line.as_str())?;
            }
        }
        Ok(())
    }

    /// A full line of an event, or of a close.
    fn full(&self, level: usize, spans: &[usize], n: Option<u64>) -> Result<String, AllocError> {
        let mut line = format!(in self.alloc; "T {} ", LEVELS[level])?;
        for span in spans {
            let x = self.spans[*span].x;
            line.push_str(format!(in self.alloc; "s{{x={x}}}:")?.as_str())?;
        }
        if !spans.is_empty() {
            line.push(' ')?;
        }
        let message = match n {
            Some(n) => format!(in self.alloc; "app: m n={n}\n")?,
            None => format!(in self.alloc; "app: close\n")?,
        };
        line.push_str(message.as_str())?;
        Ok(line)
    }

    fn compact(&self, level: usize, spans: &[usize], n: u64) -> Result<String, AllocError> {
        let mut line = format!(in self.alloc; "T {} ", LEVELS[level])?;
        let mut values = String::new(self.alloc);
        for span in spans {
            let x = self.spans[*span].x;
            line.push_str("s:")?;
            values.push_str(format!(in self.alloc; " x={x}")?.as_str())?;
        }
        if !spans.is_empty() {
            line.push(' ')?;
        }
        line.push_str(format!(in self.alloc; "app: m n={n}{}\n", values.as_str())?.as_str())?;
        Ok(line)
    }

    fn json(&self, level: usize, spans: &[usize], n: u64) -> Result<String, AllocError> {
        let mut line = format!(in self.alloc;
            "{{\"timestamp\":\"T\",\"level\":\"{}\",\"fields\":{{\"message\":\"m\",\"n\":{n}}},\"target\":\"app\"",
            JSON_LEVELS[level]
        )?;
        if let Some(last) = spans.last() {
            let x = self.spans[*last].x;
            line.push_str(format!(in self.alloc;
                ",\"span\":{{\"x\":{x},\"name\":\"s\"}},\"spans\":["
            )?.as_str())?;
            let mut comma = "";
            for span in spans {
                let x = self.spans[*span].x;
                line.push_str(format!(in self.alloc;
                    "{comma}{{\"x\":{x},\"name\":\"s\"}}"
                )?.as_str())?;
                comma = ",";
            }
            line.push(']')?;
        }
        line.push_str("}\n")?;
        Ok(line)
    }

    fn pretty(&self, level: usize, spans: &[usize], n: u64) -> Result<String, AllocError> {
        let mut line = format!(in self.alloc; "  T {} app: m, n: {n}\n", LEVELS[level])?;
        for span in spans.iter().rev() {
            let x = self.spans[*span].x;
            line.push_str(format!(in self.alloc; "    in app::s with x: {x}\n")?.as_str())?;
        }
        line.push('\n')?;
        Ok(line)
    }

    /// Makes a span where some output sees it; answers whether it did.
    pub(crate) fn new_span(
        &mut self,
        lane: usize,
        level: usize,
        x: u64,
        under: Under,
    ) -> Result<bool, AllocError> {
        if level > FILTERS[0] {
            return Ok(false);
        }
        let parent = match under {
            Under::Current => self.current(lane),
            Under::Nothing => None,
            Under::Span(span) => Some(span),
        };
        self.spans.push(ModelSpan {
            level,
            x,
            parent,
            handles: 1,
            is_open: true,
        })?;
        Ok(true)
    }

    /// Each answers whether the step is taken: the span is open, and for a close has a handle.
    pub(crate) fn enter(&mut self, lane: usize, span: usize) -> Result<bool, AllocError> {
        if !self.is_open(span) {
            return Ok(false);
        }
        let is_first = !self.entries[lane].iter().any(|entry| entry.span == span);
        self.entries[lane].push(Entry { span, is_first })?;
        Ok(true)
    }

    pub(crate) fn exit(&mut self, lane: usize, span: usize) -> Result<bool, AllocError> {
        if !self.is_open(span) {
            return Ok(false);
        }
        let mut last = None;
        for (place, entry) in self.entries[lane].iter().enumerate() {
            if entry.span == span {
                last = Some(place);
            }
        }
        if let Some(place) = last {
            self.entries[lane].remove(place);
            self.sweep(span)?;
        }
        Ok(true)
    }

    pub(crate) fn clone_span(&mut self, span: usize) -> bool {
        if !self.is_open(span) {
            return false;
        }
        self.spans[span].handles += 1;
        true
    }

    /// Answers whether the span closed.
    pub(crate) fn try_close(&mut self, span: usize) -> Result<Option<bool>, AllocError> {
        if !self.is_open(span) || self.spans[span].handles == 0 {
            return Ok(None);
        }
        self.spans[span].handles -= 1;
        self.sweep(span)?;
        Ok(Some(!self.spans[span].is_open))
    }

    fn is_held(&self, span: usize) -> bool {
        self.spans[span].handles > 0
            || self
                .entries
                .iter()
                .any(|lane| lane.iter().any(|entry| entry.span == span))
            || self
                .spans
                .iter()
                .any(|child| child.is_open && child.parent == Some(span))
    }

    /// Closes the span where nothing holds it any more, and then those that it stands in. Full lines tell of it.
    fn sweep(&mut self, span: usize) -> Result<(), AllocError> {
        let mut next = Some(span);
        while let Some(place) = next {
            if self.is_held(place) {
                return Ok(());
            }
            self.spans[place].is_open = false;
            let seen = self.seen_above(0, Some(place))?;
            let line = self.full(self.spans[place].level, &seen, None)?;
            self.texts[0].push_str(line.as_str())?;
            next = self.spans[place].parent;
        }
        Ok(())
    }
}
