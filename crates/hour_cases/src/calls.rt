// The calls of an hour, written shortly.
use book::{Adjustments, BookRefusal, Entry, GuaranteedReading, Reading, UnitReading};
use curves::Step;
use settlement::{CompetitiveEnergies, Control};

/// What a call answers: a number, or its refusal.
pub type Answer = Result<u32, BookRefusal>;

// Groups and marks are plain numbers here, since cases also give some that are outside their sets.
pub(crate) fn plant(loss: u32) -> Entry {
    Entry::AddPlant { loss }
}

pub(crate) fn buyer(loss: u32) -> Entry {
    Entry::AddBuyer { loss }
}

pub(crate) fn competitive(plant: u32, declared: u32, internal: u32) -> Entry {
    Entry::AddCompetitive {
        plant,
        declared,
        internal,
    }
}

pub(crate) fn guaranteed(
    plant: u32,
    declared: u32,
    seasonal: u32,
    internal: u32,
    feeds: u32,
) -> Entry {
    Entry::AddGuaranteed {
        plant,
        declared,
        seasonal,
        internal,
        feeds,
    }
}

pub(crate) fn correct(group: u32, unit: u32, declared: u32) -> Entry {
    Entry::Correct {
        group,
        unit,
        declared,
    }
}

pub(crate) fn put_aside(group: u32, unit: u32) -> Entry {
    Entry::PutAside { group, unit }
}

pub(crate) fn take_back(group: u32, unit: u32) -> Entry {
    Entry::TakeBack { group, unit }
}

pub(crate) fn commit(plant: u32, buyer: u32, volume: u32) -> Entry {
    Entry::Commit {
        plant,
        buyer,
        volume,
    }
}

fn control(fields: [u32; 8]) -> Control {
    let [p_act, type2, type3, type5, type6, type8, day, minute] = fields;
    Control {
        p_act,
        type2,
        type3,
        type5,
        type6,
        type8,
        day,
        minute,
    }
}

/// The reading of a competitive unit by its 17 fields, in the order of docs/hour.md.
pub(crate) fn unit_reading(fields: [u32; 17]) -> UnitReading {
    let [
        net,
        accepted,
        lost,
        limited,
        executed,
        asked,
        p_act,
        type2,
        type3,
        type5,
        type6,
        type8,
        day,
        minute,
        opportunity,
        planning,
        cooperation,
    ] = fields;
    let energies = CompetitiveEnergies {
        net,
        accepted,
        lost,
        limited,
        executed,
        asked,
    };
    let adjustments = Adjustments {
        opportunity,
        planning,
        cooperation,
    };
    UnitReading {
        energies,
        adjustments,
        control: control([p_act, type2, type3, type5, type6, type8, day, minute]),
    }
}

/// The reading of a guaranteed unit by its 9 fields, in the order of docs/hour.md.
pub(crate) fn guaranteed_reading(fields: [u32; 9]) -> GuaranteedReading {
    let [net, p_act, type2, type3, type5, type6, type8, day, minute] = fields;
    GuaranteedReading {
        net,
        control: control([p_act, type2, type3, type5, type6, type8, day, minute]),
    }
}

pub(crate) fn read_competitive(unit: u32, reading: UnitReading) -> Reading {
    Reading::Competitive { unit, reading }
}

pub(crate) fn read_guaranteed(unit: u32, reading: GuaranteedReading) -> Reading {
    Reading::Guaranteed { unit, reading }
}

pub(crate) fn read_use(buyer: u32, used: u32) -> Reading {
    Reading::Use { buyer, used }
}

pub(crate) fn step(width: u32, price: u32) -> Step {
    Step { width, price }
}
