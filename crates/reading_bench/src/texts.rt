//! Names and filters that go on with one text over and over, in two sizes.

use anyhow::Result;
use dn::read_name;
use filter_text::read_filter;
use std::alloc::{AllocError, Global};

#[derive(Clone, Copy)]
pub(crate) enum Grammar {
    Name,
    Filter,
}

impl Grammar {
    /// Reads a text, and forgets what it reads.
    pub(crate) fn read(self, alloc: Global, text: &str) -> Result<()> {
        match self {
            Grammar::Name => {
                read_name(alloc, text)?;
            }
            Grammar::Filter => {
                read_filter(alloc, text.as_bytes())?;
            }
        }
        Ok(())
    }
}

#[derive(Clone, Copy)]
pub(crate) struct Text {
    pub label: &'static str,
    pub grammar: Grammar,
    start: &'static str,
    again: &'static str,
    end: &'static str,
    pub small: usize,
    pub large: usize,
}

impl Text {
    /// How many bytes the start and the end have, and what is between them that many times.
    pub(crate) fn len(&self, times: usize) -> usize {
        self.start
            .len()
            .saturating_add(self.again.len().saturating_mul(times))
            .saturating_add(self.end.len())
    }

    /// The start, what comes again that many times, and the end.
    pub(crate) fn spelled(&self, alloc: Global, times: usize) -> Result<String, AllocError> {
        let mut text = String::from_str(alloc, self.start)?;
        for _ in 0..times {
            text.push_str(self.again)?;
        }
        text.push_str(self.end)?;
        Ok(text)
    }
}

const fn name(
    label: &'static str,
    start: &'static str,
    again: &'static str,
    small: usize,
    large: usize,
) -> Text {
    Text {
        label,
        grammar: Grammar::Name,
        start,
        again,
        end: "",
        small,
        large,
    }
}

const fn filter(label: &'static str, again: &'static str, small: usize, large: usize) -> Text {
    Text {
        label,
        grammar: Grammar::Filter,
        start: "(&",
        again,
        end: ")",
        small,
        large,
    }
}

/// Names of 10,000 and 100,000 RDNs, values of 100,000 and 1,000,000 bytes, and filters of as many.
pub(crate) fn texts() -> [Text; 12] {
    [
        name("short RDNs", "a=bcd", ",a=bcd", 9_999, 99_999),
        name(
            "RDNs",
            "ou=department-0001",
            ",ou=department-0001",
            9_999,
            99_999,
        ),
        name("spaced RDNs", "cn = a b", ", cn = a b", 9_999, 99_999),
        name("escaped RDNs", "ou=a\\2C b", ",ou=a\\2C b", 9_999, 99_999),
        name("two parts", "a=b+c=d", ",a=b+c=d", 9_999, 99_999),
        name("plain value", "cn=", "abcdefghij", 10_000, 100_000),
        name("pairs", "cn=", "\\2C", 33_333, 333_333),
        name("escapes", "cn=", "\\,", 50_000, 500_000),
        filter("items", "(cn=ab)", 14_285, 142_856),
        filter("pieces", "(cn=a*b*c)", 10_000, 100_000),
        filter("escaped items", "(cn=\\2a\\28)", 9_090, 90_909),
        filter(
            "deep filters",
            "(!(&(|(!(&(|(!(&(|(cn=a))))))))))",
            3_030,
            30_303,
        ),
    ]
}
