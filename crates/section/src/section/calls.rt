// The calls that make a section and change it; one that is refused changes nothing.
// Their clauses name the row and the load, since an impl Model would hide from callers what these two hold as facts.
// Three of them say that the kit stays: that is said of before and after, which no type holds.
ghost use Rattle.std.specs.Prelude.{◌≡◌, IfOk};
ghost use Rattle.section.specs.Calls.{first_book, Put, Take, Loads, AskedOf, TruthsOfBook};
ghost use Rattle.section.specs.Books.{book_of};

use super::Section;
use crate::curvature::Curvature;
use crate::ends::Ends;
use crate::fibre::Fibre;
use crate::figures::check_fibre;
use crate::load::Load;
use crate::row::Row;
use kits::kit::Kit;
use refusal::Refusal;
use std::alloc::{AllocError, Global};

const MOST_FIBRES: usize = 512;

impl<K: Kit + Drop> Section<K> {
    // No fibre yet, and no load; the only call that can want memory.
    pub fn new(heap: Global, kit: K) -> Result<Section<K>, AllocError>
        ensures book { IfOk result (λ s. book_of s ≡ first_book) }
        ensures kit { IfOk result (λ s. s.row.kit ≡ kit) }
    {
        let fibres = Vec::with_capacity(heap, MOST_FIBRES)?;
        Ok(Section {
            row: Row { kit, fibres },
            load: Load { force: 0, depth: 0 },
        })
    }
}

impl<K: Kit> Section<K> {
    // Puts a fibre after the others and answers its position.
    // Refused by 6 where there is no room, then by 7 for a figure out of range, then by 8 where no law has the number.
    pub fn put(
        &mut self,
        depth: i64,
        area: i64,
        material: i64,
        initial: i64,
    ) -> Result<u16, Refusal>
        ensures kit { self.new.row.kit ≡ self.old.row.kit }
        ensures book { Put (K.Kit.laws self.old.row.kit) (book_of self.old) depth area material initial result (book_of self.new) }
    {
        let position = self.row.fibres.len();
        if position >= MOST_FIBRES {
            return Err(Refusal::FullSection);
        }
        check_fibre(depth, area, initial)?;
        let Ok(number) = u8::try_from(material) else {
            return Err(Refusal::NoLaw);
        };
        // The kit's answer is taken apart here and in reach, as docs/DECISIONS.md says; the number above is, in the same form.
        let Some(_) = self.row.kit.limits(number as usize) else {
            return Err(Refusal::NoLaw);
        };
        self.row.fibres.push_reserved(Fibre {
            depth: depth as u32,
            area: area as u32,
            material: number,
            initial: initial as i32,
        });
        Ok(position as u16)
    }

    // Takes the fibre at a position out, and moves those after it down by one; refused by 9 where none stands there.
    pub fn take(&mut self, position: i64) -> Result<(), Refusal>
        ensures kit { self.new.row.kit ≡ self.old.row.kit }
        ensures book { Take (book_of self.old) position result (book_of self.new) }
    {
        if position < 0 || self.row.fibres.len() as i64 <= position {
            return Err(Refusal::NoFibre { position });
        }
        self.row.fibres.remove(position as usize);
        Ok(())
    }

    // Sets the load in thousandths of a pound and its depth in sixteenths of an inch; refused by 10 for a figure out of range.
    pub fn load(&mut self, force: i64, depth: i64) -> Result<(), Refusal>
        ensures kit { self.new.row.kit ≡ self.old.row.kit }
        ensures book { Loads (book_of self.old) force depth result (book_of self.new) }
    {
        self.load = Load::new(force, depth)?;
        Ok(())
    }

    // The ends of the top strains that balance the load at a curvature, or the first ground that bars them; it alters nothing.
    pub fn ask(&self, curvature: u32) -> Result<Ends, Refusal>
        ensures asked { AskedOf (K.Kit.laws self.now.row.kit) (book_of self.now) curvature result }
        ensures truths { TruthsOfBook (K.Kit.laws self.now.row.kit) (book_of self.now) curvature }
    {
        self.row.ask(&self.load, Curvature::try_from(curvature)?)
    }
}
