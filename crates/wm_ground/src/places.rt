//! The order in which refusals are told: the rows of their table.
ghost use Rattle.std.specs.Prelude.{◌≡◌};
ghost use Rattle.wm_model.specs.Step.Places.{cell_place, form_place, limit_place, place, space_place};

use wm_base::{CellRefusal, FormRefusal, LimitRefusal, Refusal, SpaceRefusal};

fn form_place(refusal: &FormRefusal) -> u32
    ensures { result ≡ form_place refusal.now }
{
    match refusal {
        FormRefusal::Wm001 => 1,
        FormRefusal::Wm002 => 2,
        FormRefusal::Wm003(_) => 3,
        FormRefusal::Wm004(_) => 5,
        FormRefusal::Wm005(_) => 6,
        FormRefusal::Wm016(_) => 7,
        FormRefusal::Wm010(_) => 9,
        FormRefusal::Wm011(_) => 10,
        FormRefusal::Wm019(_, _) => 11,
        FormRefusal::Wm012(_) => 12,
        FormRefusal::Wm014(_) => 13,
        FormRefusal::Wm013(_) => 14,
        FormRefusal::Wm015(_) => 15,
        FormRefusal::Wm017(_) => 17,
        FormRefusal::Wm018(_) => 18,
    }
}

fn space_place(refusal: &SpaceRefusal) -> u32
    ensures { result ≡ space_place refusal.now }
{
    match refusal {
        SpaceRefusal::Wm024(_) => 8,
        SpaceRefusal::Wm020(_) => 19,
        SpaceRefusal::Wm021(_) => 20,
        SpaceRefusal::Wm022(_) => 21,
        SpaceRefusal::Wm023(_) => 22,
        SpaceRefusal::Wm025(_) => 23,
        SpaceRefusal::Wm030 => 24,
        SpaceRefusal::Wm031(_) => 25,
        SpaceRefusal::Wm032(_, _) => 26,
        SpaceRefusal::Wm033 => 27,
        SpaceRefusal::Wm040(_, _) => 28,
        SpaceRefusal::Wm041(_) => 29,
        SpaceRefusal::Wm042(_) => 30,
        SpaceRefusal::Wm043(_, _) => 31,
        SpaceRefusal::Wm044(_, _) => 32,
        SpaceRefusal::Wm045(_) => 33,
        SpaceRefusal::Wm046(_) => 34,
    }
}

fn cell_place(refusal: &CellRefusal) -> u32
    ensures { result ≡ cell_place refusal.now }
{
    match refusal {
        CellRefusal::Wm065(_) => 4,
        CellRefusal::Wm062(_) => 16,
        CellRefusal::Wm052(_, _) => 35,
        CellRefusal::Wm053(_) => 36,
        CellRefusal::Wm064 => 37,
        CellRefusal::Wm061(_) => 38,
        CellRefusal::Wm063(_) => 39,
        CellRefusal::Wm060(_, _) => 40,
        CellRefusal::Wm051(_, _, _) => 41,
        CellRefusal::Wm050(_, _, _, _, _) => 42,
    }
}

fn limit_place(refusal: &LimitRefusal) -> u32
    ensures { result ≡ limit_place refusal.now }
{
    match refusal {
        LimitRefusal::Wm070(_) => 43,
        LimitRefusal::Wm071 => 44,
        LimitRefusal::Wm072 => 45,
        LimitRefusal::Wm073 => 46,
        LimitRefusal::Wm074 => 47,
        LimitRefusal::Wm075 => 48,
        LimitRefusal::Wm076(_) => 49,
        LimitRefusal::Wm099 => 50,
    }
}

/// The row of a refusal in their table: of two that hold, the one of the lesser row is told.
pub fn place(refusal: &Refusal) -> u32
    ensures { result ≡ place refusal.now }
{
    match refusal {
        Refusal::Form(refusal) => form_place(refusal),
        Refusal::Space(refusal) => space_place(refusal),
        Refusal::Cell(refusal) => cell_place(refusal),
        Refusal::Limit(refusal) => limit_place(refusal),
    }
}
