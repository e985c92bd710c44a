//! The logarithms of the numbers up to a limit, each one look-up.
ghost use Rattle.std.specs.Prelude.{◌≡◌, ◌+◌, ◌<◌, ◌≤◌, ◌^◌, pos, length, IfOk};
ghost use Rattle.fixed_log.specs.Log.{lg};
ghost use Rattle.fixed_log.specs.Growth.{log_product, growth, AreGrowths};

use crate::log;
use rgb_base::OutOfMemory;
use std::alloc::Global;
use std::marker::Model;

/// A table of logarithms, and of what the products of counts and logarithms grow by, at 12 bytes a
/// number. Contracts see the largest number that it has.
#[derive(Debug, Drop)]
pub struct LogTable {
    logs: Vec<u32>,
    growths: Vec<i64>,
}

impl Model for LogTable {
    ghost use Rattle.std.specs.Prelude.{ℕ, vec_len};
    ghost use Rattle.fixed_log.specs.Table.{IsTable, HaveGrowths};

    ghost Value = { ℕ };

    ghost view = { λ t. vec_len t.logs };

    ghost invariant = { λ t. IsTable t.logs.items × HaveGrowths t.logs.items t.growths.items };
}

impl LogTable {
    /// The logarithms of 1 to n.
    pub fn new(alloc: Global, n: u32) -> Result<LogTable, OutOfMemory>
        requires some { 0 < n }
        requires most { n ≤ 2 ^ 31 }
        ensures top { IfOk result (λ table. table ≡ n) }
    {
        let mut logs = Vec::with_capacity(alloc, n as usize)?;
        let mut growths = Vec::with_capacity(alloc, n as usize + 1)?;
        let mut before = 0;
        for below in 0..n {
            let log = log::lg(u64::from(below) + 1);
            let product = log_product(below, log);
            logs.push_reserved(log);
            growths.push_reserved(product - before);
            before = product;
        }
        let last = log_product(n, log::lg(u64::from(n) + 1));
        growths.push_reserved(last - before);
        Ok(LogTable { logs, growths })
    }

    /// The largest number of the table.
    pub fn top(&self) -> u32
        ensures same { result ≡ self.now }
        ensures some { 0 < result }
        ensures most { result ≤ 2 ^ 31 }
    {
        self.logs.len() as u32
    }

    /// The logarithm of a number of the table.
    pub fn lg(&self, x: u32) -> u32
        requires some { 0 < x }
        requires most { x ≤ self.now }
        ensures same { result ≡ lg x }
    {
        self.logs[x as usize - 1]
    }

    /// What a count times the logarithm of one more grows by from the count before to this one, and
    /// 0 for 0.
    #[inline]
    pub fn growth(&self, count: u32) -> i64
        requires most { count ≤ self.now }
        ensures same { result ≡ growth count }
    {
        self.growths[count as usize]
    }

    /// Lends the growths at all counts from 0 to the largest number of the table.
    #[inline]
    pub fn growths(&self) -> &[i64]
        ensures len { length result.now ≡ self.now + 1 }
        ensures same { AreGrowths result.now }
    {
        &self.growths
    }
}

/// A count times the logarithm of one more.
fn log_product(count: u32, log: u32) -> i64
    requires most { count ≤ 2 ^ 31 }
    requires log { log ≡ lg (count + 1) }
    ensures same { result ≡ pos (log_product count) }
    ensures small { log_product count ≤ 2 ^ 53 }
{
    i64::from(count) * i64::from(log)
}
