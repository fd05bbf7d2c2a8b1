// What is read in the closed hour.
use book::{Adjustments, BookRefusal, ClosedHour, GuaranteedReading, UnitReading};
use settlement::{CompetitiveEnergies, Control};

const NO_ENERGIES: CompetitiveEnergies = CompetitiveEnergies {
    net: 0,
    accepted: 0,
    lost: 0,
    limited: 0,
    executed: 0,
    asked: 0,
};

const NO_ADJUSTMENTS: Adjustments = Adjustments {
    opportunity: 0,
    planning: 0,
    cooperation: 0,
};

const NO_CONTROL: Control = Control {
    p_act: 0,
    type2: 0,
    type3: 0,
    type5: 0,
    type6: 0,
    type8: 0,
    day: 0,
    minute: 0,
};

const COMPETITIVE_1: UnitReading = UnitReading {
    energies: CompetitiveEnergies {
        net: 70,
        accepted: 60,
        limited: 10,
        executed: 50,
        ..NO_ENERGIES
    },
    adjustments: NO_ADJUSTMENTS,
    control: Control {
        p_act: 40,
        type2: 2,
        type6: 4,
        day: 1,
        ..NO_CONTROL
    },
};

const COMPETITIVE_2: UnitReading = UnitReading {
    energies: CompetitiveEnergies {
        net: 30,
        accepted: 20,
        executed: 25,
        asked: 1,
        ..NO_ENERGIES
    },
    adjustments: Adjustments {
        opportunity: 1,
        planning: 4,
        ..NO_ADJUSTMENTS
    },
    control: Control {
        p_act: 22,
        type6: 3,
        day: 2,
        minute: 780,
        ..NO_CONTROL
    },
};

const COMPETITIVE_3: UnitReading = UnitReading {
    energies: CompetitiveEnergies {
        net: 45,
        accepted: 30,
        lost: 5,
        ..NO_ENERGIES
    },
    adjustments: Adjustments {
        cooperation: 2,
        ..NO_ADJUSTMENTS
    },
    control: Control {
        p_act: 20,
        ..NO_CONTROL
    },
};

const COMPETITIVE_4: UnitReading = UnitReading {
    energies: CompetitiveEnergies {
        net: 10,
        ..NO_ENERGIES
    },
    adjustments: NO_ADJUSTMENTS,
    control: Control {
        p_act: 5,
        ..NO_CONTROL
    },
};

const GUARANTEED_1: GuaranteedReading = GuaranteedReading {
    net: 50,
    control: Control {
        p_act: 10,
        type2: 1,
        ..NO_CONTROL
    },
};

/// Takes the readings of all units and buyers. The last of a buyer counts.
pub(crate) fn read(hour: &mut ClosedHour) -> Result<(), BookRefusal> {
    hour.read_competitive(1, COMPETITIVE_1)?;
    hour.read_competitive(2, COMPETITIVE_2)?;
    hour.read_competitive(3, COMPETITIVE_3)?;
    hour.read_competitive(4, COMPETITIVE_4)?;
    hour.read_guaranteed(1, GUARANTEED_1)?;
    hour.read_use(1, 100)?;
    hour.read_use(2, 90)?;
    hour.read_use(2, 77)?;
    Ok(())
}
