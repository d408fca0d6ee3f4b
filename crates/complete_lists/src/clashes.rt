//! What two rows clash in: the first place where their entries have opposite signs. It is settled where some row, with
//! either sign, is conformally below their sum up to that place.

ghost use Rattle.std.specs.Prelude.{◌≡◌, ◌≤◌, ◌<◌, ◌+◌, ◌||◌, length, drop, take, All, IfOk, IfSome, not, true};
ghost use Rattle.std.specs.List.{list_all, list_any};
ghost use Rattle.lattice_theory.specs.Vectors.{add};
ghost use Rattle.lattice_theory.specs.Vectors as vector;
ghost use Rattle.lattice_theory.specs.BasisLimits.{IsNarrow};
ghost use Rattle.lattice_laws.proofs.Signs.{agrees};
ghost use Rattle.lattice_laws.proofs.Conformal.{agree};
ghost use Rattle.criterion_laws.specs.Prefixes.{is_below_in, pair_settles};
ghost use Rattle.criterion_laws.specs.Prefixes as prefixes;
ghost use Rattle.complete_lists.specs.Ranks.{rows_in, signs_in, AgreeIn};
ghost use Rattle.complete_lists.specs.Searches.{FitsRows};

use crate::ranked::{Ranked, by_norm};
use int_vectors::{Signs, are_apart, conforms, conforms_turned, has_places, signs_of};
use mat_files::Matrix;
use std::alloc::{AllocError, Global};
use std::marker::Model;

/// Whether what each two rows clash in behind their first `cols` entries, the second one with either sign, is settled.
pub fn clashes_settle(alloc: Global, basis: &Matrix, cols: u32) -> Result<bool, AllocError>
    requires { All IsNarrow basis.now.rows }
    ensures { IfOk result (λ b. b ≡ prefixes.clashes_settle cols basis.now.rows basis.now.rows) }
{
    let settlers = Settlers::new(alloc, basis, cols)?;
    for row in 0..basis.rows() {
        if !settlers.row_settles(alloc, basis.row(row + 1), row + 1)? {
            return Ok(false);
        }
    }
    Ok(true)
}

/// What settles a clash: a row, looked for in the order of norms, where it is behind the first `cols` entries.
///
/// The signs are those of the first places of each row, `cols` of them, in the order of norms and in that of the list.
/// No later place may be among them, as it can be behind the clash.
#[derive(Drop)]
struct Settlers<'a> {
    basis: &'a Matrix,
    cols: u32,
    ranked: Vec<Ranked>,
    places: usize,
    signs: Vec<Signs>,
    listed: Vec<Signs>,
}

impl<'a> Model for Settlers<'a> {
    ghost use Rattle.complete_lists.specs.Searches.{Search};

    ghost Value = { Search };

    ghost use Rattle.complete_lists.specs.Settlers.{AreSettlers};

    ghost view = { λ s. record { cols = s.cols; basis = s.basis.now } };

    ghost invariant = { λ s. AreSettlers s };
}

impl<'a> Settlers<'a> {
    /// The rows of the list.
    fn new(alloc: Global, basis: &'a Matrix, cols: u32) -> Result<Settlers<'a>, AllocError>
        requires { All IsNarrow basis.now.rows }
        ensures { IfOk result (λ s. s ≡ record { cols = cols; basis = basis.now }) }
    {
        let ranked = by_norm(alloc, basis)?;
        let places = cols.min(basis.cols()) as usize;
        let signs = all_signs(alloc, &ranked, places)?;
        let listed = listed_signs(alloc, basis, places)?;
        Ok(Settlers {
            basis,
            cols,
            ranked,
            places,
            signs,
            listed,
        })
    }

    /// Whether what `f` and each row from a place on, counted from 0, clash in is settled, with either sign of the row.
    fn row_settles(&self, alloc: Global, f: &[i64], from: u32) -> Result<bool, AllocError>
        requires { FitsRows self.now.basis f.now }
        ensures { IfOk result (λ b. b ≡ list_all (pair_settles self.now.cols self.now.basis.rows f.now)
            (drop from self.now.basis.rows)) }
    {
        let turned = opposite(alloc, f)?;
        if !self.signed_settles(alloc, f, from)? {
            return Ok(false);
        }
        self.signed_settles(alloc, &turned, from)
    }

    /// Whether it is for `f` and each row from a place on as it stands.
    fn signed_settles(&self, alloc: Global, f: &[i64], from: u32) -> Result<bool, AllocError>
        requires { FitsRows self.now.basis f.now }
        ensures { IfOk result (λ b. b ≡ list_all (prefixes.clash_settles self.now.cols self.now.basis.rows f.now)
            (drop from self.now.basis.rows)) }
    {
        let own = signs_of(&f[..self.places]);
        for row in from..self.basis.rows() {
            let start = agreeing(own, self.listed[row as usize], self.places);
            if !self.clash_settles(alloc, f, self.basis.row(row + 1), start)? {
                return Ok(false);
            }
        }
        Ok(true)
    }

    /// Whether what the two clash in is settled, where they agree before a place.
    fn clash_settles(
        &self,
        alloc: Global,
        f: &[i64],
        g: &[i64],
        start: usize,
    ) -> Result<bool, AllocError>
        requires first { FitsRows self.now.basis f.now }
        requires second { FitsRows self.now.basis g.now }
        requires start { start ≤ length f.now }
        requires agree { agree (take start f.now) (take start g.now) ≡ true }
        ensures { IfOk result (λ b. b ≡ prefixes.clash_settles self.now.cols self.now.basis.rows f.now g.now) }
    {
        let Some(at) = first_clash(f, g, start) else {
            return Ok(true);
        };
        if at < self.cols as usize {
            return Ok(true);
        }
        let sum = first_sums(alloc, f, g, at + 1)?;
        Ok(self.has_below(&sum))
    }

    /// Whether the first entries of some row, with either sign, are conformally below `z`.
    fn has_below(&self, z: &[i64]) -> bool
        requires behind { self.now.cols ≤ length z.now }
        requires within { length z.now ≤ self.now.basis.cols }
        ensures { result ≡ list_any (is_below_in (length z.now) z.now) self.now.basis.rows }
    {
        let shared = signs_of(&z[..self.places]);
        for i in 0..self.ranked.len() {
            let row = self.ranked[i].row.as_slice();
            if !has_places(self.signs[i], shared) {
                continue;
            }
            let e = &row[..z.len()];
            if lies_below(e, z) {
                return true;
            }
        }
        false
    }
}

/// The signs of the first places of each row.
fn all_signs(alloc: Global, ranked: &[Ranked], places: usize) -> Result<Vec<Signs>, AllocError>
    requires { All (λ v. places ≤ length v) (rows_in ranked.now) }
    ensures { IfOk result (λ signs. signs.items ≡ signs_in places (rows_in ranked.now)) }
{
    let mut signs = Vec::with_capacity(alloc, ranked.len())?;
    for i in 0..ranked.len() {
        let row = ranked[i].row.as_slice();
        signs.push(signs_of(&row[..places]))?;
    }
    Ok(signs)
}

/// The signs of the first places of each row as the rows are listed.
fn listed_signs(alloc: Global, basis: &Matrix, places: usize) -> Result<Vec<Signs>, AllocError>
    requires { places ≤ basis.now.cols }
    ensures { IfOk result (λ signs. signs.items ≡ signs_in places basis.now.rows) }
{
    let mut signs = Vec::with_capacity(alloc, basis.rows() as usize)?;
    for place in 0..basis.rows() {
        let row = basis.row(place + 1);
        signs.push(signs_of(&row[..places]))?;
    }
    Ok(signs)
}

/// How many places from the first on need not be looked at, as two vectors with these signs agree there.
fn agreeing(signs: Signs, others: Signs, places: usize) -> usize
    ensures agree { AgreeIn places signs others result }
    ensures within { result ≤ places }
{
    if are_apart(signs, others) { places } else { 0 }
}

/// The first place, from 0, where the two have entries of opposite signs. They agree before `start`.
fn first_clash(f: &[i64], g: &[i64], start: usize) -> Option<usize>
    requires same { length f.now ≡ length g.now }
    requires start { start ≤ length f.now }
    requires agree { agree (take start f.now) (take start g.now) ≡ true }
    ensures first { result ≡ prefixes.first_clash f.now g.now }
    ensures inside { IfSome result (λ at. at < length f.now) }
{
    for at in start..f.len() {
        if clashes(f[at], g[at]) {
            return Some(at);
        }
    }
    None
}

/// Whether the two numbers have opposite signs.
fn clashes(x: i64, y: i64) -> bool
    ensures { result ≡ not (agrees x y) }
{
    x < 0 && y > 0 || x > 0 && y < 0
}

/// The first entries of the sum.
fn first_sums(alloc: Global, f: &[i64], g: &[i64], entries: usize) -> Result<Vec<i64>, AllocError>
    requires narrow { IsNarrow f.now }
    requires narrower { IsNarrow g.now }
    requires first { entries ≤ length f.now }
    requires second { entries ≤ length g.now }
    ensures { IfOk result (λ sums. sums.items ≡ take entries (add f.now g.now)) }
{
    let mut sums = Vec::with_capacity(alloc, entries)?;
    for at in 0..entries {
        sums.push(f[at] + g[at])?;
    }
    Ok(sums)
}

/// Whether `e`, with either sign, is conformally below `z`.
fn lies_below(e: &[i64], z: &[i64]) -> bool
    requires { length e.now ≡ length z.now }
    ensures { result ≡ (vector.conforms e.now z.now || vector.conforms (vector.opposite e.now) z.now) }
{
    conforms(e, z) || conforms_turned(e, z)
}

/// The vector with all signs turned.
fn opposite(alloc: Global, v: &[i64]) -> Result<Vec<i64>, AllocError>
    requires { IsNarrow v.now }
    ensures { IfOk result (λ turned. turned.items ≡ vector.opposite v.now) }
{
    let mut turned = Vec::with_capacity(alloc, v.len())?;
    for x in v {
        turned.push(-*x)?;
    }
    Ok(turned)
}
