//! Where each sum, as a move, leads from each sum.

ghost use Rattle.std.specs.Prelude.{◌≡◌, ◌<◌, ◌≤◌, ◌⊎◌, ℤ, length, All, IfOk};
ghost use Rattle.std.specs.Bool.{OnTrue, OnFalse};
ghost use Rattle.lattice_theory.specs.Vectors.{add};
ghost use Rattle.lattice_theory.specs.SignedSums.{vectors};
ghost use Rattle.sieve_laws.specs.Sieve.{IsTarget};
ghost use Rattle.brick_sums.specs.Places.{width};
ghost use Rattle.layer_sieve.specs.Targets.{IsTargetRow, IsWord};

use brick_sums::Sums;
use std::alloc::{AllocError, Global};
use std::marker::Model;

/// How many sums there may be for the places of all pairs to be kept: past this they would take over 200 MB.
const MOST_KEPT: u32 = 5000;

/// How many entries a sum has whose places are sought when they are asked for.
const WIDEST: usize = 32;

/// A list of sums, with the places to which they lead as moves: from the sum `w` the move `h` leads to the place of
/// `w + h`, where that is a sum. Places count from 0. Where there are more than 5,000 sums, of at most 32 entries, a
/// place is sought when it is asked for; else those of all pairs are kept.
#[derive(Debug, Drop)]
pub struct Targets<'a> {
    sums: &'a Sums,
    rows: Vec<Vec<Option<u32>>>,
}

impl<'a> Model for Targets<'a> {
    ghost use Rattle.std.specs.Prelude.{List};
    ghost use Rattle.lattice_theory.specs.SignedSums.{Sum};
    ghost use Rattle.layer_sieve.specs.Targets.{AreTargetsOf};

    ghost Value = { List Sum };

    ghost view = { λ t. t.sums.now };

    ghost invariant = { λ t. AreTargetsOf t.sums.now t.rows.items };
}

impl<'a> Targets<'a> {
    /// The sums with the places to which each leads from each. An error comes only where memory runs out.
    pub fn new(alloc: Global, sums: &'a Sums) -> Result<Targets<'a>, AllocError>
        ensures { IfOk result (λ t. t ≡ sums.now) }
    {
        all_words(sums);
        one_width(sums);
        let kept = moves_kept(sums);
        let mut rows = Vec::with_capacity(alloc, kept as usize)?;
        for h in 0..kept {
            rows.push(target_row(alloc, sums, h)?)?;
        }
        Ok(Targets { sums, rows })
    }

    /// How many sums there are, all of one width.
    pub fn len(&self) -> u32
        ensures count { result ≡ length self.now }
        ensures widths { All (λ v. length v ≡ width self.now) (vectors self.now) }
    {
        self.sums.len()
    }

    /// The place to which the move at place `h` leads from the sum at place `from`.
    pub fn target(&self, h: u32, from: u32) -> Option<u32>
        requires listed { h < length self.now }
        requires from { from < length self.now }
        ensures { IsTarget (vectors self.now) h from result }
    {
        match self.rows.get(h as usize) {
            Some(row) => row[from as usize],
            None => sought(self.sums, from, h),
        }
    }
}

/// For how many moves the places are kept: for all or for none.
fn moves_kept(sums: &Sums) -> u32
    ensures some { result ≤ length sums.now }
    ensures all { (result ≡ length sums.now) ⊎ (width sums.now ≤ 32) }
{
    if sums.len() <= MOST_KEPT || sums.get(sums.zero()).len() > WIDEST {
        sums.len()
    } else {
        0
    }
}

/// The place of the sum of two listed sums.
fn sought(sums: &Sums, from: u32, h: u32) -> Option<u32>
    requires from { from < length sums.now }
    requires listed { h < length sums.now }
    requires words { All (All IsWord) (vectors sums.now) }
    requires narrow { width sums.now ≤ 32 }
    ensures { IsTarget (vectors sums.now) h from result }
{
    let mut scratch = [0i64; WIDEST];
    target(sums, from, h, &mut scratch[..sums.get(from).len()])
}

/// The place to which the move at place `h` leads from each sum.
fn target_row(alloc: Global, sums: &Sums, h: u32) -> Result<Vec<Option<u32>>, AllocError>
    requires listed { h < length sums.now }
    requires words { All (All IsWord) (vectors sums.now) }
    ensures { IfOk result (λ row. IsTargetRow (vectors sums.now) h row.items) }
{
    let mut scratch = vec![in alloc; 0i64; sums.get(h).len()]?;
    let mut row = Vec::with_capacity(alloc, sums.len() as usize)?;
    for from in 0..sums.len() {
        row.push(target(sums, from, h, &mut scratch))?;
    }
    Ok(row)
}

/// The place of the sum of two listed sums. `scratch` has as many entries as a sum.
fn target(sums: &Sums, from: u32, h: u32, scratch: &mut [i64]) -> Option<u32>
    requires from { from < length sums.now }
    requires listed { h < length sums.now }
    requires words { All (All IsWord) (vectors sums.now) }
    requires space { length scratch.old ≡ width sums.now }
    ensures target { IsTarget (vectors sums.now) h from result }
    ensures space { length scratch.new ≡ length scratch.old }
{
    if write_sum(scratch, sums.get(from), sums.get(h)) {
        sums.find(scratch)
    } else {
        None
    }
}

/// Writes the sum of two vectors, and says whether a word holds each of its entries.
fn write_sum(into: &mut [i64], first: &[i64], second: &[i64]) -> bool
    requires first { length first.now ≡ length into.old }
    requires second { length second.now ≡ length into.old }
    ensures held { OnTrue result (into.new ≡ add first.now second.now) }
    ensures wide { OnFalse result (¬ All IsWord (add first.now second.now)) }
    ensures size { length into.new ≡ length into.old }
{
    for at in 0..into.len() {
        let Some(entry) = first[at].checked_add(second[at]) else {
            return false;
        };
        into[at] = entry;
    }
    true
}

/// Law: a word holds each entry of each sum. The loop does nothing but read them.
fn all_words(sums: &Sums)
    ensures { All (All IsWord) (vectors sums.now) }
{
    for i in 0..sums.len() {
        words(sums.get(i));
    }
}

/// Law: the sums are all of one width. The loop does nothing but read them.
fn one_width(sums: &Sums)
    ensures { All (λ v. length v ≡ width sums.now) (vectors sums.now) }
{
    for i in 0..sums.len() {
        let _sum = sums.get(i);
    }
}

/// Law: a word holds each entry. The loop does nothing but read them.
fn words(vector: &[i64])
    ensures { All IsWord vector.now }
{
    for entry in vector {
        let _entry = *entry;
    }
}
