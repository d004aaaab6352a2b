//! The worked cases: what `unit_tests`, `worked_orders`, `worked_views` and `worked_runs` try.
//!
//! Inputs and stored answers are in `data/orders`, `data/views` and `data/runs`. A line is printed
//! for each case, and the status is 1 if one differs. It is one program, since each takes minutes
//! to compile.
#![tactic(auto)]

use std::io;
use std::io::{Error, ErrorKind};

fn main(rt: HostRuntime) -> io::Result<()> {
    let mut all = unit_tests::hold(&rt)?;
    all &= worked_orders::hold(&rt)?;
    all &= worked_views::hold(&rt)?;
    all &= worked_runs::hold(&rt, &rt)?;
    if all {
        Ok(())
    } else {
        Err(Error::from(ErrorKind::Other))
    }
}
