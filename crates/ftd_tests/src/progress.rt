//! How far an import is, as it is told.

use crate::desks::{ASH, desk};
use ftd_csv::Sheet;
use ftd_desk::Desk;
use ftd_imports::{Progress, import};
use sqlite::MemStore;
use std::alloc::Global;
use std::process::Abort;
use std::test::Fail;

/// What was told: the counts of records, one pair after the other, and how often the end.
#[derive(Drop)]
struct Told {
    counts: Vec<(usize, usize)>,
    ends: u32,
}

impl Progress for Told {
    fn tell(&mut self, done: usize, all: usize) {
        let _ = self.counts.push((done, all));
    }

    fn end(&mut self) {
        self.ends = self.ends.wrapping_add(1);
    }
}

/// An import of the text tells these counts, and then so many ends.
fn tells(
    rt: &impl Abort,
    alloc: Global,
    desk: &mut Desk<MemStore>,
    text: &str,
    counts: &[(usize, usize)],
    ends: u32,
) -> Result<(), Fail> {
    let mut told = Told {
        counts: Vec::new(alloc),
        ends: 0,
    };
    let _ = import(alloc, desk, Sheet::Runs, text.as_bytes(), &mut told);
    assert_eq!(rt; told.counts.as_slice(), counts);
    assert_eq!(rt; told.ends, ends);
    Ok(())
}

#[test]
fn each_list_is_told(rt: HostRuntime) -> Result<(), Fail> {
    let alloc = rt.alloc();
    let mut desk = desk(alloc, &ASH)?;
    tells(&rt, alloc, &mut desk, "employer,run\n", &[], 0)?;
    let mut text = format!(in alloc; "employer,run,payday,fit,ss,medicare\n")?;
    tells(&rt, alloc, &mut desk, text.as_str(), &[], 1)?;
    // Records without a field more count as others do.
    for _ in 0..33000 {
        text.push_str("ash\n")?;
    }
    let counts = [(16384, 33000), (32768, 33000), (33000, 33000)];
    tells(&rt, alloc, &mut desk, text.as_str(), &counts, 1)
}
