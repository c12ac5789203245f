//! Readings in the text format of Prometheus. The Rust's users take a metrics crate.

use crate::bounds::Bounds;
use crate::reading::Reading;
use std::fmt;
use std::fmt::Display;

/// The media type of `Text`.
pub const CONTENT_TYPE: &'static str = "text/plain; version=0.0.4";

/// A reading with the names that its lines carry. The names are the program's own words, never a
/// request's: each other name makes lines of its own, which whoever reads them keeps.
#[derive(Clone, Copy)]
pub struct Named {
    /// The label `service` of each line.
    pub service: &'static str,
    /// The label `kind` of the answers, from kind 0 on. A kind past the last name is called by its number,
    /// and shown if it isn't 0.
    pub kinds: &'static [&'static str],
    pub reading: Reading,
}

/// Readings in Prometheus' text format, version 0.0.4. Times are in seconds, exact to the nanosecond.
///
/// One text has all readings of a program: its lines of one metric stand together, as the format wants.
#[derive(Clone, Copy)]
pub struct Text<'a> {
    meters: &'a [Named],
}

impl<'a> Text<'a> {
    /// Creates the text of these readings. No two have the same name of a service.
    pub fn new(meters: &'a [Named]) -> Text<'a> {
        Text { meters }
    }
}

// A metric: its name, its type and what it tells.
#[derive(Clone, Copy)]
struct Metric {
    name: &'static str,
    sort: &'static str,
    help: &'static str,
}

impl Metric {
    fn counter(name: &'static str, help: &'static str) -> Metric {
        Metric {
            name,
            sort: "counter",
            help,
        }
    }

    fn gauge(name: &'static str, help: &'static str) -> Metric {
        Metric {
            name,
            sort: "gauge",
            help,
        }
    }
}

// The two lines before those of a metric.
impl Display for Metric {
    fn fmt<W: fmt::Write>(&self, f: &mut fmt::Formatter<W>) -> fmt::Result {
        let Metric { name, sort, help } = *self;
        writeln!(f, "# HELP {name} {help}")?;
        writeln!(f, "# TYPE {name} {sort}")
    }
}

// A time in seconds, as a decimal of no more digits than it needs.
#[derive(Clone, Copy)]
struct Seconds(u128);

impl Display for Seconds {
    fn fmt<W: fmt::Write>(&self, f: &mut fmt::Formatter<W>) -> fmt::Result {
        let whole = self.0 / 1_000_000_000;
        let mut rest = (self.0 % 1_000_000_000) as u64;
        write!(f, "{whole}")?;
        if rest > 0 {
            f.write_char('.')?;
        }
        for _ in 0..9 {
            if rest == 0 {
                break;
            }
            let digit = rest * 10 / 1_000_000_000;
            rest = rest * 10 % 1_000_000_000;
            write!(f, "{digit}")?;
        }
        Ok(())
    }
}

// A word between the quotes of a label, as the format has it.
#[derive(Clone, Copy)]
struct Escaped<'a>(&'a str);

impl Display for Escaped<'_> {
    fn fmt<W: fmt::Write>(&self, f: &mut fmt::Formatter<W>) -> fmt::Result {
        for letter in self.0.chars() {
            match letter {
                '\\' => f.write_str("\\\\")?,
                '"' => f.write_str("\\\"")?,
                '\n' => f.write_str("\\n")?,
                _ => f.write_char(letter)?,
            }
        }
        Ok(())
    }
}

// One line: a number of a metric, with the name of the service and maybe one more label.
#[derive(Clone, Copy)]
struct Line<V, N> {
    name: &'static str,
    suffix: &'static str,
    service: &'static str,
    label: Option<(&'static str, V)>,
    number: N,
}

impl<V: Display, N: Display> Display for Line<V, N> {
    fn fmt<W: fmt::Write>(&self, f: &mut fmt::Formatter<W>) -> fmt::Result {
        let service = Escaped(self.service);
        write!(f, "{}{}{{service=\"{service}\"", self.name, self.suffix)?;
        if let Some((label, value)) = &self.label {
            write!(f, ",{label}=\"{value}\"")?;
        }
        writeln!(f, "}} {}", self.number)
    }
}

impl Named {
    fn plain<N>(&self, name: &'static str, suffix: &'static str, number: N) -> Line<u64, N> {
        Line {
            name,
            suffix,
            service: self.service,
            label: None,
            number,
        }
    }

    fn labelled<V>(
        &self,
        name: &'static str,
        suffix: &'static str,
        label: &'static str,
        value: V,
        number: u64,
    ) -> Line<V, u64> {
        Line {
            name,
            suffix,
            service: self.service,
            label: Some((label, value)),
            number,
        }
    }

    fn write_outcomes<W: fmt::Write>(
        &self,
        f: &mut fmt::Formatter<W>,
        name: &'static str,
    ) -> fmt::Result {
        let Reading {
            ok,
            err,
            dropped,
            ..
        } = &self.reading;
        for (outcome, number) in [("ok", *ok), ("err", *err), ("dropped", *dropped)] {
            write!(f, "{}", self.labelled(name, "", "outcome", outcome, number))?;
        }
        Ok(())
    }

    fn write_kinds<W: fmt::Write>(
        &self,
        f: &mut fmt::Formatter<W>,
        name: &'static str,
    ) -> fmt::Result {
        for (kind, number) in self.reading.kinds.iter().enumerate() {
            match self.kinds.get(kind) {
                Some(word) => {
                    write!(
                        f,
                        "{}",
                        self.labelled(name, "", "kind", Escaped(*word), *number)
                    )?;
                }
                None if *number > 0 => {
                    write!(f, "{}", self.labelled(name, "", "kind", kind, *number))?;
                }
                None => {}
            }
        }
        Ok(())
    }

    // Each bucket has the answers up to its bound, and so those of the buckets before it.
    fn write_buckets<W: fmt::Write>(
        &self,
        f: &mut fmt::Formatter<W>,
        name: &'static str,
    ) -> fmt::Result {
        let Bounds { nanos, .. } = &self.reading.bounds;
        let mut below = 0u64;
        for (bound, number) in nanos.iter().zip(self.reading.buckets.iter()) {
            below = below.saturating_add(*number);
            let bound = Seconds(*bound as u128);
            write!(f, "{}", self.labelled(name, "_bucket", "le", bound, below))?;
        }
        let all = self.reading.answers();
        write!(f, "{}", self.labelled(name, "_bucket", "le", "+Inf", all))?;
        write!(
            f,
            "{}",
            self.plain(name, "_sum", Seconds(self.reading.nanos))
        )?;
        write!(f, "{}", self.plain(name, "_count", all))
    }
}

impl Text<'_> {
    fn write_numbers<W: fmt::Write, F: Fn(&Reading) -> u64>(
        &self,
        f: &mut fmt::Formatter<W>,
        metric: Metric,
        of: F,
    ) -> fmt::Result
        requires { F.IsAlwaysCallable of }
    {
        write!(f, "{metric}")?;
        for meter in self.meters.iter() {
            write!(f, "{}", meter.plain(metric.name, "", of(&meter.reading)))?;
        }
        Ok(())
    }

    fn write_calls<W: fmt::Write>(&self, f: &mut fmt::Formatter<W>) -> fmt::Result {
        let metric = Metric::counter("tower_calls_total", "Calls that were counted.");
        self.write_numbers(f, metric, |reading| reading.calls)?;
        let metric = Metric::counter("tower_ended_calls_total", "Calls that ended, by outcome.");
        write!(f, "{metric}")?;
        for meter in self.meters.iter() {
            meter.write_outcomes(f, metric.name)?;
        }
        let metric = Metric::counter("tower_answers_total", "Answers, by kind.");
        write!(f, "{metric}")?;
        for meter in self.meters.iter() {
            meter.write_kinds(f, metric.name)?;
        }
        let metric = Metric::counter("tower_uncounted_calls_total", "Calls that weren't counted.");
        self.write_numbers(f, metric, |reading| reading.uncounted)
    }

    fn write_flights<W: fmt::Write>(&self, f: &mut fmt::Formatter<W>) -> fmt::Result {
        let metric = Metric::gauge("tower_in_flight", "Calls without an answer.");
        self.write_numbers(f, metric, |reading| reading.in_flight)?;
        let help = "The most calls without an answer at once.";
        let metric = Metric::gauge("tower_in_flight_highest", help);
        self.write_numbers(f, metric, |reading| reading.highest)
    }

    fn write_unready<W: fmt::Write>(&self, f: &mut fmt::Formatter<W>) -> fmt::Result {
        let help = "How often polls found the service unready, until one didn't.";
        let metric = Metric::counter("tower_unready_total", help);
        self.write_numbers(f, metric, |reading| reading.unready)?;
        let metric = Metric::counter("tower_unready_seconds_total", "The time of these.");
        write!(f, "{metric}")?;
        for meter in self.meters.iter() {
            let time = Seconds(meter.reading.unready_nanos);
            write!(f, "{}", meter.plain(metric.name, "", time))?;
        }
        Ok(())
    }

    fn write_times<W: fmt::Write>(&self, f: &mut fmt::Formatter<W>) -> fmt::Result {
        let metric = Metric {
            name: "tower_answer_seconds",
            sort: "histogram",
            help: "The time from a call to its answer.",
        };
        write!(f, "{metric}")?;
        for meter in self.meters.iter() {
            meter.write_buckets(f, metric.name)?;
        }
        Ok(())
    }
}

impl Display for Text<'_> {
    fn fmt<W: fmt::Write>(&self, f: &mut fmt::Formatter<W>) -> fmt::Result {
        self.write_calls(f)?;
        self.write_flights(f)?;
        self.write_unready(f)?;
        self.write_times(f)
    }
}
