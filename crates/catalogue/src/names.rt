// The rows of the catalogue by the names of their DGN and their field in the standard
// (made by tools/catalogue from docs/catalogue.tsv).

// 6.9.13 WATERHEATER_CONFIGURATION_COMMAND
pub mod waterheater_configuration_command {
    use crate::{Row, Unit};

    pub const INSTANCE: Row = Row {
        dgn: 0x1FD9C,
        first: 0,
        width: 8,
        unit: Unit::Other,
        plain: false,
        two_state: false,
    };

    pub const SYSTEM_TIMER_STARTING_VALUE: Row = Row {
        dgn: 0x1FD9C,
        first: 8,
        width: 16,
        unit: Unit::Other,
        plain: true,
        two_state: false,
    };

    pub const DOMESTIC_WATER_TIMER_STARTING_VALUE: Row = Row {
        dgn: 0x1FD9C,
        first: 24,
        width: 16,
        unit: Unit::Other,
        plain: false,
        two_state: false,
    };
}

// 6.9.12 WATERHEATER_CONFIGURATION_STATUS
pub mod waterheater_configuration_status {
    use crate::{Row, Unit};

    pub const INSTANCE: Row = Row {
        dgn: 0x1FD9D,
        first: 0,
        width: 8,
        unit: Unit::Other,
        plain: false,
        two_state: false,
    };

    pub const SYSTEM_TIMER_STARTING_VALUE: Row = Row {
        dgn: 0x1FD9D,
        first: 8,
        width: 16,
        unit: Unit::Other,
        plain: true,
        two_state: false,
    };

    pub const DOMESTIC_WATER_TIMER_STARTING_VALUE: Row = Row {
        dgn: 0x1FD9D,
        first: 24,
        width: 16,
        unit: Unit::Other,
        plain: false,
        two_state: false,
    };
}

// 6.9.11 WATERHEATER_TIMER_STATUS
pub mod waterheater_timer_status {
    use crate::{Row, Unit};

    pub const INSTANCE: Row = Row {
        dgn: 0x1FD9E,
        first: 0,
        width: 8,
        unit: Unit::Other,
        plain: false,
        two_state: false,
    };

    pub const SYSTEM_TIMER: Row = Row {
        dgn: 0x1FD9E,
        first: 8,
        width: 16,
        unit: Unit::Other,
        plain: false,
        two_state: false,
    };

    pub const DOMESTIC_WATER_TIMER: Row = Row {
        dgn: 0x1FD9E,
        first: 24,
        width: 16,
        unit: Unit::Other,
        plain: false,
        two_state: false,
    };
}

// 6.9.10 CIRCULATION_PUMP_TIMER_STATUS
pub mod circulation_pump_timer_status {
    use crate::{Row, Unit};

    pub const INSTANCE: Row = Row {
        dgn: 0x1FD9F,
        first: 0,
        width: 8,
        unit: Unit::Other,
        plain: false,
        two_state: false,
    };

    pub const PUMP_OVERRIDE_TIMER: Row = Row {
        dgn: 0x1FD9F,
        first: 8,
        width: 16,
        unit: Unit::Other,
        plain: false,
        two_state: false,
    };
}

// 6.20.24 CHARGER_PROPERTIES
pub mod charger_properties {
    use crate::{Row, Unit};

    pub const INSTANCE: Row = Row {
        dgn: 0x1FDAA,
        first: 0,
        width: 8,
        unit: Unit::Other,
        plain: false,
        two_state: false,
    };

    pub const CHARGING_CURRENT_MAX_SETTING: Row = Row {
        dgn: 0x1FDAA,
        first: 8,
        width: 8,
        unit: Unit::Ampere,
        plain: false,
        two_state: false,
    };

    pub const EQUALIZATION_TIME: Row = Row {
        dgn: 0x1FDAA,
        first: 16,
        width: 8,
        unit: Unit::Ampere,
        plain: false,
        two_state: false,
    };

    pub const CHARGING_CURRENT_RESOLUTION: Row = Row {
        dgn: 0x1FDAA,
        first: 24,
        width: 8,
        unit: Unit::Ampere,
        plain: true,
        two_state: false,
    };

    pub const SUPPORTED_BATTERY_TYPES: Row = Row {
        dgn: 0x1FDAA,
        first: 32,
        width: 8,
        unit: Unit::Other,
        plain: false,
        two_state: false,
    };

    pub const SUPPORTED_BATTERY_TYPES_CONTINUED: Row = Row {
        dgn: 0x1FDAA,
        first: 40,
        width: 8,
        unit: Unit::Other,
        plain: false,
        two_state: false,
    };

    pub const VENDOR_DEFINED_PROPRIETARY_TYPE_1_USER_DEFINED_CHARGE_PARAMETERS: Row = Row {
        dgn: 0x1FDAA,
        first: 48,
        width: 2,
        unit: Unit::Other,
        plain: false,
        two_state: true,
    };

    pub const VENDOR_DEFINED_PROPRIETARY_TYPE_2_USER_DEFINED_CHARGE_PARAMETERS: Row = Row {
        dgn: 0x1FDAA,
        first: 50,
        width: 2,
        unit: Unit::Other,
        plain: false,
        two_state: true,
    };
}

// 6.17.9 AIR_CONDITIONER_COMPONENT_STATUS_2
pub mod air_conditioner_component_status_2 {
    use crate::{Row, Unit};

    pub const INSTANCE: Row = Row {
        dgn: 0x1FDAB,
        first: 0,
        width: 8,
        unit: Unit::Other,
        plain: false,
        two_state: false,
    };

    pub const SECONDARY_INSTANCE: Row = Row {
        dgn: 0x1FDAB,
        first: 8,
        width: 8,
        unit: Unit::Other,
        plain: false,
        two_state: false,
    };

    pub const CURRENT: Row = Row {
        dgn: 0x1FDAB,
        first: 16,
        width: 16,
        unit: Unit::Ampere,
        plain: false,
        two_state: false,
    };

    pub const VOLTAGE: Row = Row {
        dgn: 0x1FDAB,
        first: 32,
        width: 16,
        unit: Unit::Volt,
        plain: false,
        two_state: false,
    };

    pub const POWER: Row = Row {
        dgn: 0x1FDAB,
        first: 48,
        width: 16,
        unit: Unit::Other,
        plain: false,
        two_state: false,
    };
}

// 6.17.8 AIR_CONDITIONER_COMPONENT_COMMAND
pub mod air_conditioner_component_command {
    use crate::{Row, Unit};

    pub const INSTANCE: Row = Row {
        dgn: 0x1FDAC,
        first: 0,
        width: 8,
        unit: Unit::Other,
        plain: false,
        two_state: false,
    };

    pub const SECONDARY_INSTANCE: Row = Row {
        dgn: 0x1FDAC,
        first: 8,
        width: 8,
        unit: Unit::Other,
        plain: false,
        two_state: false,
    };

    pub const OPERATING_DIRECTION_MODE: Row = Row {
        dgn: 0x1FDAC,
        first: 16,
        width: 4,
        unit: Unit::Other,
        plain: false,
        two_state: false,
    };

    pub const OUTPUT_LEVEL: Row = Row {
        dgn: 0x1FDAC,
        first: 24,
        width: 8,
        unit: Unit::Percent,
        plain: false,
        two_state: false,
    };
}

// 6.17.7 AIR_CONDITIONER_COMPONENT_STATUS
pub mod air_conditioner_component_status {
    use crate::{Row, Unit};

    pub const INSTANCE: Row = Row {
        dgn: 0x1FDAD,
        first: 0,
        width: 8,
        unit: Unit::Other,
        plain: false,
        two_state: false,
    };

    pub const SECONDARY_INSTANCE: Row = Row {
        dgn: 0x1FDAD,
        first: 8,
        width: 8,
        unit: Unit::Other,
        plain: false,
        two_state: false,
    };

    pub const OPERATING_DIRECTION_MODE: Row = Row {
        dgn: 0x1FDAD,
        first: 16,
        width: 4,
        unit: Unit::Other,
        plain: false,
        two_state: false,
    };

    pub const DE_ICING_STATUS: Row = Row {
        dgn: 0x1FDAD,
        first: 20,
        width: 2,
        unit: Unit::Other,
        plain: false,
        two_state: true,
    };

    pub const OUTPUT_LEVEL: Row = Row {
        dgn: 0x1FDAD,
        first: 24,
        width: 8,
        unit: Unit::Percent,
        plain: false,
        two_state: false,
    };

    pub const OUTPUT_RESOLUTION: Row = Row {
        dgn: 0x1FDAD,
        first: 32,
        width: 4,
        unit: Unit::Other,
        plain: false,
        two_state: false,
    };

    pub const A_C_COMPONENT_STATE: Row = Row {
        dgn: 0x1FDAD,
        first: 36,
        width: 4,
        unit: Unit::Other,
        plain: false,
        two_state: false,
    };

    pub const DELAY_TIMER: Row = Row {
        dgn: 0x1FDAD,
        first: 40,
        width: 8,
        unit: Unit::Other,
        plain: false,
        two_state: false,
    };
}

// 6.17.3 AIR_CONDITIONER_STATUS_2
pub mod air_conditioner_status_2 {
    use crate::{Row, Unit};

    pub const INSTANCE: Row = Row {
        dgn: 0x1FDC9,
        first: 0,
        width: 8,
        unit: Unit::Other,
        plain: false,
        two_state: false,
    };

    pub const COMPRESSOR_STATUS: Row = Row {
        dgn: 0x1FDC9,
        first: 8,
        width: 4,
        unit: Unit::Other,
        plain: false,
        two_state: false,
    };

    pub const REDUCED_NOISE_MODE: Row = Row {
        dgn: 0x1FDC9,
        first: 19,
        width: 2,
        unit: Unit::Other,
        plain: false,
        two_state: true,
    };

    pub const EXTERIOR_TEMPERATURE: Row = Row {
        dgn: 0x1FDC9,
        first: 24,
        width: 16,
        unit: Unit::Celsius,
        plain: false,
        two_state: false,
    };

    pub const COIL_TEMPERATURE: Row = Row {
        dgn: 0x1FDC9,
        first: 40,
        width: 16,
        unit: Unit::Celsius,
        plain: false,
        two_state: false,
    };

    pub const COIL_TEMP_ERROR: Row = Row {
        dgn: 0x1FDC9,
        first: 56,
        width: 2,
        unit: Unit::Other,
        plain: false,
        two_state: true,
    };

    pub const COIL_FREEZE_DETECTED: Row = Row {
        dgn: 0x1FDC9,
        first: 58,
        width: 2,
        unit: Unit::Other,
        plain: false,
        two_state: true,
    };

    pub const EXTERIOR_TEMP_ERROR: Row = Row {
        dgn: 0x1FDC9,
        first: 60,
        width: 2,
        unit: Unit::Other,
        plain: false,
        two_state: true,
    };

    pub const DEFROST_CYCLE_ACTIVE: Row = Row {
        dgn: 0x1FDC9,
        first: 62,
        width: 2,
        unit: Unit::Other,
        plain: false,
        two_state: true,
    };
}

// 6.20.10 CHARGER_STATUS_3
pub mod charger_status_3 {
    use crate::{Row, Unit};

    pub const CHARGER_INSTANCE: Row = Row {
        dgn: 0x1FDCA,
        first: 0,
        width: 8,
        unit: Unit::Other,
        plain: false,
        two_state: false,
    };

    pub const DERATING_STATUS: Row = Row {
        dgn: 0x1FDCA,
        first: 8,
        width: 2,
        unit: Unit::Other,
        plain: false,
        two_state: true,
    };

    pub const DERATING_REASON: Row = Row {
        dgn: 0x1FDCA,
        first: 16,
        width: 8,
        unit: Unit::Other,
        plain: false,
        two_state: false,
    };
}

// 6.9.7 CIRCULATION_PUMP_COMMAND
pub mod circulation_pump_command {
    use crate::{Row, Unit};

    pub const INSTANCE: Row = Row {
        dgn: 0x1FE96,
        first: 0,
        width: 8,
        unit: Unit::Other,
        plain: false,
        two_state: false,
    };

    pub const OUTPUT_MODE: Row = Row {
        dgn: 0x1FE96,
        first: 8,
        width: 4,
        unit: Unit::Other,
        plain: false,
        two_state: false,
    };
}

// 6.9.6 CIRCULATION_PUMP_STATUS
pub mod circulation_pump_status {
    use crate::{Row, Unit};

    pub const INSTANCE: Row = Row {
        dgn: 0x1FE97,
        first: 0,
        width: 8,
        unit: Unit::Other,
        plain: false,
        two_state: false,
    };

    pub const OUTPUT_STATUS: Row = Row {
        dgn: 0x1FE97,
        first: 8,
        width: 4,
        unit: Unit::Other,
        plain: false,
        two_state: false,
    };

    pub const PUMP_OVERCURRENT_STATUS: Row = Row {
        dgn: 0x1FE97,
        first: 16,
        width: 2,
        unit: Unit::Other,
        plain: false,
        two_state: true,
    };

    pub const PUMP_UNDERCURRENT_STATUS: Row = Row {
        dgn: 0x1FE97,
        first: 18,
        width: 2,
        unit: Unit::Other,
        plain: false,
        two_state: true,
    };

    pub const PUMP_TEMPERATURE_STATUS: Row = Row {
        dgn: 0x1FE97,
        first: 20,
        width: 2,
        unit: Unit::Other,
        plain: false,
        two_state: true,
    };
}

// 6.9.5 WATERHEATER_COMMAND_2
pub mod waterheater_command_2 {
    use crate::{Row, Unit};

    pub const INSTANCE: Row = Row {
        dgn: 0x1FE98,
        first: 0,
        width: 8,
        unit: Unit::Other,
        plain: false,
        two_state: false,
    };

    pub const ENGINE_PREHEAT: Row = Row {
        dgn: 0x1FE98,
        first: 8,
        width: 4,
        unit: Unit::Other,
        plain: false,
        two_state: false,
    };

    pub const COMMAND: Row = Row {
        dgn: 0x1FE98,
        first: 16,
        width: 8,
        unit: Unit::Other,
        plain: false,
        two_state: false,
    };

    pub const HOT_WATER_PRIORITY: Row = Row {
        dgn: 0x1FE98,
        first: 24,
        width: 2,
        unit: Unit::Other,
        plain: false,
        two_state: true,
    };
}

// 6.9.4 WATERHEATER_STATUS_2
pub mod waterheater_status_2 {
    use crate::{Row, Unit};

    pub const INSTANCE: Row = Row {
        dgn: 0x1FE99,
        first: 0,
        width: 8,
        unit: Unit::Other,
        plain: false,
        two_state: false,
    };

    pub const ELECTRIC_ELEMENT_LEVEL: Row = Row {
        dgn: 0x1FE99,
        first: 8,
        width: 4,
        unit: Unit::Other,
        plain: false,
        two_state: false,
    };

    pub const MAX_ELECTRIC_ELEMENT_LEVEL: Row = Row {
        dgn: 0x1FE99,
        first: 12,
        width: 4,
        unit: Unit::Other,
        plain: false,
        two_state: false,
    };

    pub const ENGINE_PREHEAT: Row = Row {
        dgn: 0x1FE99,
        first: 16,
        width: 4,
        unit: Unit::Other,
        plain: false,
        two_state: false,
    };

    pub const COOLANT_LEVEL_WARNING: Row = Row {
        dgn: 0x1FE99,
        first: 20,
        width: 2,
        unit: Unit::Other,
        plain: false,
        two_state: true,
    };

    pub const HOT_WATER_PRIORITY: Row = Row {
        dgn: 0x1FE99,
        first: 22,
        width: 2,
        unit: Unit::Other,
        plain: false,
        two_state: true,
    };

    pub const OUTPUT_STATUS_BURNER: Row = Row {
        dgn: 0x1FE99,
        first: 24,
        width: 2,
        unit: Unit::Other,
        plain: false,
        two_state: true,
    };

    pub const OUTPUT_STATUS_BURNER_INDICATOR: Row = Row {
        dgn: 0x1FE99,
        first: 26,
        width: 2,
        unit: Unit::Other,
        plain: false,
        two_state: true,
    };

    pub const OUTPUT_STATUS_ELECTRIC_LOW: Row = Row {
        dgn: 0x1FE99,
        first: 28,
        width: 2,
        unit: Unit::Other,
        plain: false,
        two_state: true,
    };

    pub const OUTPUT_STATUS_ELECTRIC_HIGH: Row = Row {
        dgn: 0x1FE99,
        first: 30,
        width: 2,
        unit: Unit::Other,
        plain: false,
        two_state: true,
    };

    pub const BURNER_OVERCURRENT_STATUS: Row = Row {
        dgn: 0x1FE99,
        first: 32,
        width: 2,
        unit: Unit::Other,
        plain: false,
        two_state: true,
    };

    pub const BURNER_UNDERCURRENT_STATUS: Row = Row {
        dgn: 0x1FE99,
        first: 34,
        width: 2,
        unit: Unit::Other,
        plain: false,
        two_state: true,
    };

    pub const BURNER_TEMPERATURE_STATUS: Row = Row {
        dgn: 0x1FE99,
        first: 36,
        width: 2,
        unit: Unit::Other,
        plain: false,
        two_state: true,
    };

    pub const BURNER_INPUT_STATUS: Row = Row {
        dgn: 0x1FE99,
        first: 38,
        width: 2,
        unit: Unit::Other,
        plain: false,
        two_state: true,
    };

    pub const BURNER_INDICATOR_OVERCURRENT_STATUS: Row = Row {
        dgn: 0x1FE99,
        first: 40,
        width: 2,
        unit: Unit::Other,
        plain: false,
        two_state: true,
    };

    pub const BURNER_INDICATOR_UNDERCURRENT_STATUS: Row = Row {
        dgn: 0x1FE99,
        first: 42,
        width: 2,
        unit: Unit::Other,
        plain: false,
        two_state: true,
    };

    pub const BURNER_INDICATOR_TEMPERATURE_STATUS: Row = Row {
        dgn: 0x1FE99,
        first: 44,
        width: 2,
        unit: Unit::Other,
        plain: false,
        two_state: true,
    };

    pub const ELECTRIC_LOW_ELEMENT_OVERCURRENT_STATUS: Row = Row {
        dgn: 0x1FE99,
        first: 48,
        width: 2,
        unit: Unit::Other,
        plain: false,
        two_state: true,
    };

    pub const ELECTRIC_LOW_ELEMENT_UNDERCURRENT_STATUS: Row = Row {
        dgn: 0x1FE99,
        first: 50,
        width: 2,
        unit: Unit::Other,
        plain: false,
        two_state: true,
    };

    pub const ELECTRIC_LOW_ELEMENT_TEMPERATURE_STATUS: Row = Row {
        dgn: 0x1FE99,
        first: 52,
        width: 2,
        unit: Unit::Other,
        plain: false,
        two_state: true,
    };

    pub const ELECTRIC_LOW_ELEMENT_INPUT_STATUS: Row = Row {
        dgn: 0x1FE99,
        first: 54,
        width: 2,
        unit: Unit::Other,
        plain: false,
        two_state: true,
    };

    pub const ELECTRIC_HIGH_ELEMENT_OVERCURRENT_STATUS: Row = Row {
        dgn: 0x1FE99,
        first: 56,
        width: 2,
        unit: Unit::Other,
        plain: false,
        two_state: true,
    };

    pub const ELECTRIC_HIGH_ELEMENT_UNDERCURRENT_STATUS: Row = Row {
        dgn: 0x1FE99,
        first: 58,
        width: 2,
        unit: Unit::Other,
        plain: false,
        two_state: true,
    };

    pub const ELECTRIC_HIGH_ELEMENT_TEMPERATURE_STATUS: Row = Row {
        dgn: 0x1FE99,
        first: 60,
        width: 2,
        unit: Unit::Other,
        plain: false,
        two_state: true,
    };

    pub const ELECTRIC_HIGH_ELEMENT_INPUT_STATUS: Row = Row {
        dgn: 0x1FE99,
        first: 62,
        width: 2,
        unit: Unit::Other,
        plain: false,
        two_state: true,
    };
}

// 6.20.9 CHARGER_STATUS_2
pub mod charger_status_2 {
    use crate::{Row, Unit};

    pub const CHARGER_INSTANCE: Row = Row {
        dgn: 0x1FEA3,
        first: 0,
        width: 8,
        unit: Unit::Other,
        plain: false,
        two_state: false,
    };

    pub const DC_SOURCE_INSTANCE_DEPRECATED: Row = Row {
        dgn: 0x1FEA3,
        first: 8,
        width: 8,
        unit: Unit::Other,
        plain: false,
        two_state: false,
    };

    pub const CHARGER_PRIORITY: Row = Row {
        dgn: 0x1FEA3,
        first: 16,
        width: 8,
        unit: Unit::Other,
        plain: false,
        two_state: false,
    };

    pub const CHARGING_VOLTAGE: Row = Row {
        dgn: 0x1FEA3,
        first: 24,
        width: 16,
        unit: Unit::Volt,
        plain: false,
        two_state: false,
    };

    pub const CHARGING_CURRENT: Row = Row {
        dgn: 0x1FEA3,
        first: 40,
        width: 16,
        unit: Unit::Ampere,
        plain: false,
        two_state: false,
    };

    pub const CHARGER_TEMPERATURE: Row = Row {
        dgn: 0x1FEA3,
        first: 56,
        width: 8,
        unit: Unit::Celsius,
        plain: false,
        two_state: false,
    };
}

// 6.20.19 CHARGER_CONFIGURATION_COMMAND_4
pub mod charger_configuration_command_4 {
    use crate::{Row, Unit};

    pub const INSTANCE: Row = Row {
        dgn: 0x1FEBE,
        first: 0,
        width: 8,
        unit: Unit::Other,
        plain: false,
        two_state: false,
    };

    pub const BULK_TIME: Row = Row {
        dgn: 0x1FEBE,
        first: 8,
        width: 16,
        unit: Unit::Other,
        plain: false,
        two_state: false,
    };

    pub const ABSORPTION_TIME: Row = Row {
        dgn: 0x1FEBE,
        first: 24,
        width: 16,
        unit: Unit::Other,
        plain: false,
        two_state: false,
    };

    pub const FLOAT_TIME: Row = Row {
        dgn: 0x1FEBE,
        first: 40,
        width: 16,
        unit: Unit::Other,
        plain: false,
        two_state: false,
    };
}

// 6.20.18 CHARGER_CONFIGURATION_STATUS_4
pub mod charger_configuration_status_4 {
    use crate::{Row, Unit};

    pub const INSTANCE: Row = Row {
        dgn: 0x1FEBF,
        first: 0,
        width: 8,
        unit: Unit::Other,
        plain: false,
        two_state: false,
    };

    pub const BULK_TIME: Row = Row {
        dgn: 0x1FEBF,
        first: 8,
        width: 16,
        unit: Unit::Other,
        plain: false,
        two_state: false,
    };

    pub const ABSORPTION_TIME: Row = Row {
        dgn: 0x1FEBF,
        first: 24,
        width: 16,
        unit: Unit::Other,
        plain: false,
        two_state: false,
    };

    pub const FLOAT_TIME: Row = Row {
        dgn: 0x1FEBF,
        first: 40,
        width: 16,
        unit: Unit::Other,
        plain: false,
        two_state: false,
    };
}

// 6.20.17 CHARGER_CONFIGURATION_COMMAND_3
pub mod charger_configuration_command_3 {
    use crate::{Row, Unit};

    pub const INSTANCE: Row = Row {
        dgn: 0x1FECB,
        first: 0,
        width: 8,
        unit: Unit::Other,
        plain: false,
        two_state: false,
    };

    pub const BULK_VOLTAGE: Row = Row {
        dgn: 0x1FECB,
        first: 8,
        width: 16,
        unit: Unit::Volt,
        plain: false,
        two_state: false,
    };

    pub const ABSORPTION_VOLTAGE: Row = Row {
        dgn: 0x1FECB,
        first: 24,
        width: 16,
        unit: Unit::Volt,
        plain: false,
        two_state: false,
    };

    pub const FLOAT_VOLTAGE: Row = Row {
        dgn: 0x1FECB,
        first: 40,
        width: 16,
        unit: Unit::Volt,
        plain: false,
        two_state: false,
    };

    pub const TEMPERATURE_COMPENSATION_CONSTANT: Row = Row {
        dgn: 0x1FECB,
        first: 56,
        width: 8,
        unit: Unit::Other,
        plain: false,
        two_state: false,
    };
}

// 6.20.16 CHARGER_CONFIGURATION_STATUS_3
pub mod charger_configuration_status_3 {
    use crate::{Row, Unit};

    pub const INSTANCE: Row = Row {
        dgn: 0x1FECC,
        first: 0,
        width: 8,
        unit: Unit::Other,
        plain: false,
        two_state: false,
    };

    pub const BULK_VOLTAGE: Row = Row {
        dgn: 0x1FECC,
        first: 8,
        width: 16,
        unit: Unit::Volt,
        plain: false,
        two_state: false,
    };

    pub const ABSORPTION_VOLTAGE: Row = Row {
        dgn: 0x1FECC,
        first: 24,
        width: 16,
        unit: Unit::Volt,
        plain: false,
        two_state: false,
    };

    pub const FLOAT_VOLTAGE: Row = Row {
        dgn: 0x1FECC,
        first: 40,
        width: 16,
        unit: Unit::Volt,
        plain: false,
        two_state: false,
    };

    pub const TEMPERATURE_COMPENSATION_CONSTANT: Row = Row {
        dgn: 0x1FECC,
        first: 56,
        width: 8,
        unit: Unit::Other,
        plain: false,
        two_state: false,
    };
}

// 6.16.10 THERMOSTAT_SCHEDULE_COMMAND_2
pub mod thermostat_schedule_command_2 {
    use crate::{Row, Unit};

    pub const INSTANCE: Row = Row {
        dgn: 0x1FEF4,
        first: 0,
        width: 8,
        unit: Unit::Other,
        plain: false,
        two_state: false,
    };

    pub const SCHEDULE_MODE_INSTANCE: Row = Row {
        dgn: 0x1FEF4,
        first: 8,
        width: 8,
        unit: Unit::Other,
        plain: false,
        two_state: false,
    };

    pub const SUNDAY: Row = Row {
        dgn: 0x1FEF4,
        first: 16,
        width: 2,
        unit: Unit::Other,
        plain: false,
        two_state: true,
    };

    pub const MONDAY: Row = Row {
        dgn: 0x1FEF4,
        first: 18,
        width: 2,
        unit: Unit::Other,
        plain: false,
        two_state: true,
    };

    pub const TUESDAY: Row = Row {
        dgn: 0x1FEF4,
        first: 20,
        width: 2,
        unit: Unit::Other,
        plain: false,
        two_state: true,
    };

    pub const WEDNESDAY: Row = Row {
        dgn: 0x1FEF4,
        first: 22,
        width: 2,
        unit: Unit::Other,
        plain: false,
        two_state: true,
    };

    pub const SATURDAY: Row = Row {
        dgn: 0x1FEF4,
        first: 28,
        width: 2,
        unit: Unit::Other,
        plain: false,
        two_state: true,
    };
}

// 6.16.9 THERMOSTAT_SCHEDULE_COMMAND_1
pub mod thermostat_schedule_command_1 {
    use crate::{Row, Unit};

    pub const INSTANCE: Row = Row {
        dgn: 0x1FEF5,
        first: 0,
        width: 8,
        unit: Unit::Other,
        plain: false,
        two_state: false,
    };

    pub const SCHEDULE_MODE_INSTANCE: Row = Row {
        dgn: 0x1FEF5,
        first: 8,
        width: 8,
        unit: Unit::Other,
        plain: false,
        two_state: false,
    };

    pub const START_HOUR: Row = Row {
        dgn: 0x1FEF5,
        first: 16,
        width: 8,
        unit: Unit::Other,
        plain: false,
        two_state: false,
    };

    pub const START_MINUTE: Row = Row {
        dgn: 0x1FEF5,
        first: 24,
        width: 8,
        unit: Unit::Other,
        plain: false,
        two_state: false,
    };

    pub const SETPOINT_TEMP_HEAT: Row = Row {
        dgn: 0x1FEF5,
        first: 32,
        width: 16,
        unit: Unit::Celsius,
        plain: false,
        two_state: false,
    };

    pub const SETPOINT_TEMP_COOL: Row = Row {
        dgn: 0x1FEF5,
        first: 48,
        width: 16,
        unit: Unit::Celsius,
        plain: false,
        two_state: false,
    };
}

// 6.16.8 THERMOSTAT_SCHEDULE_STATUS_2
pub mod thermostat_schedule_status_2 {
    use crate::{Row, Unit};

    pub const INSTANCE: Row = Row {
        dgn: 0x1FEF6,
        first: 0,
        width: 8,
        unit: Unit::Other,
        plain: false,
        two_state: false,
    };

    pub const SCHEDULE_MODE_INSTANCE: Row = Row {
        dgn: 0x1FEF6,
        first: 8,
        width: 8,
        unit: Unit::Other,
        plain: false,
        two_state: false,
    };

    pub const SUNDAY: Row = Row {
        dgn: 0x1FEF6,
        first: 16,
        width: 2,
        unit: Unit::Other,
        plain: false,
        two_state: true,
    };

    pub const MONDAY: Row = Row {
        dgn: 0x1FEF6,
        first: 18,
        width: 2,
        unit: Unit::Other,
        plain: false,
        two_state: true,
    };

    pub const TUESDAY: Row = Row {
        dgn: 0x1FEF6,
        first: 20,
        width: 2,
        unit: Unit::Other,
        plain: false,
        two_state: true,
    };

    pub const WEDNESDAY: Row = Row {
        dgn: 0x1FEF6,
        first: 22,
        width: 2,
        unit: Unit::Other,
        plain: false,
        two_state: true,
    };

    pub const SATURDAY: Row = Row {
        dgn: 0x1FEF6,
        first: 28,
        width: 2,
        unit: Unit::Other,
        plain: false,
        two_state: true,
    };
}

// 6.16.7 THERMOSTAT_SCHEDULE_STATUS_1
pub mod thermostat_schedule_status_1 {
    use crate::{Row, Unit};

    pub const INSTANCE: Row = Row {
        dgn: 0x1FEF7,
        first: 0,
        width: 8,
        unit: Unit::Other,
        plain: false,
        two_state: false,
    };

    pub const SCHEDULE_MODE_INSTANCE: Row = Row {
        dgn: 0x1FEF7,
        first: 8,
        width: 8,
        unit: Unit::Other,
        plain: false,
        two_state: false,
    };

    pub const START_HOUR: Row = Row {
        dgn: 0x1FEF7,
        first: 16,
        width: 8,
        unit: Unit::Other,
        plain: false,
        two_state: false,
    };

    pub const START_MINUTE: Row = Row {
        dgn: 0x1FEF7,
        first: 24,
        width: 8,
        unit: Unit::Other,
        plain: false,
        two_state: false,
    };

    pub const SETPOINT_TEMP_HEAT: Row = Row {
        dgn: 0x1FEF7,
        first: 32,
        width: 16,
        unit: Unit::Celsius,
        plain: false,
        two_state: false,
    };

    pub const SETPOINT_TEMP_COOL: Row = Row {
        dgn: 0x1FEF7,
        first: 48,
        width: 16,
        unit: Unit::Celsius,
        plain: false,
        two_state: false,
    };
}

// 6.16.5 THERMOSTAT_COMMAND_2
pub mod thermostat_command_2 {
    use crate::{Row, Unit};

    pub const INSTANCE: Row = Row {
        dgn: 0x1FEF8,
        first: 0,
        width: 8,
        unit: Unit::Other,
        plain: false,
        two_state: false,
    };

    pub const CURRENT_SCHEDULE_INSTANCE: Row = Row {
        dgn: 0x1FEF8,
        first: 8,
        width: 8,
        unit: Unit::Other,
        plain: false,
        two_state: false,
    };

    pub const REDUCED_NOISE_MODE: Row = Row {
        dgn: 0x1FEF8,
        first: 16,
        width: 2,
        unit: Unit::Other,
        plain: false,
        two_state: true,
    };
}

// 6.16.4 THERMOSTAT_COMMAND_1
pub mod thermostat_command_1 {
    use crate::{Row, Unit};

    pub const INSTANCE: Row = Row {
        dgn: 0x1FEF9,
        first: 0,
        width: 8,
        unit: Unit::Other,
        plain: false,
        two_state: false,
    };

    pub const OPERATING_MODE: Row = Row {
        dgn: 0x1FEF9,
        first: 8,
        width: 4,
        unit: Unit::Other,
        plain: false,
        two_state: false,
    };

    pub const FAN_MODE: Row = Row {
        dgn: 0x1FEF9,
        first: 12,
        width: 2,
        unit: Unit::Other,
        plain: false,
        two_state: true,
    };

    pub const SCHEDULE_MODE: Row = Row {
        dgn: 0x1FEF9,
        first: 14,
        width: 2,
        unit: Unit::Other,
        plain: false,
        two_state: true,
    };

    pub const FAN_SPEED: Row = Row {
        dgn: 0x1FEF9,
        first: 16,
        width: 8,
        unit: Unit::Percent,
        plain: false,
        two_state: false,
    };

    pub const SETPOINT_TEMP_HEAT: Row = Row {
        dgn: 0x1FEF9,
        first: 24,
        width: 16,
        unit: Unit::Celsius,
        plain: false,
        two_state: false,
    };

    pub const SETPOINT_TEMP_COOL: Row = Row {
        dgn: 0x1FEF9,
        first: 40,
        width: 16,
        unit: Unit::Celsius,
        plain: false,
        two_state: false,
    };
}

// 6.16.3 THERMOSTAT_STATUS_2
pub mod thermostat_status_2 {
    use crate::{Row, Unit};

    pub const INSTANCE: Row = Row {
        dgn: 0x1FEFA,
        first: 0,
        width: 8,
        unit: Unit::Other,
        plain: false,
        two_state: false,
    };

    pub const CURRENT_SCHEDULE_INSTANCE: Row = Row {
        dgn: 0x1FEFA,
        first: 8,
        width: 8,
        unit: Unit::Other,
        plain: false,
        two_state: false,
    };

    pub const NUMBER_OF_SCHEDULE_INSTANCES: Row = Row {
        dgn: 0x1FEFA,
        first: 16,
        width: 8,
        unit: Unit::Other,
        plain: false,
        two_state: false,
    };

    pub const REDUCED_NOISE_MODE: Row = Row {
        dgn: 0x1FEFA,
        first: 24,
        width: 2,
        unit: Unit::Other,
        plain: false,
        two_state: true,
    };
}

// 6.20.7 CHARGER_ACFAULT_CONFIGURATION_COMMAND_2
pub mod charger_acfault_configuration_command_2 {
    use crate::{Row, Unit};

    pub const INSTANCE: Row = Row {
        dgn: 0x1FF86,
        first: 0,
        width: 8,
        unit: Unit::Other,
        plain: false,
        two_state: false,
    };

    pub const HIGH_FREQUENCY_LIMIT: Row = Row {
        dgn: 0x1FF86,
        first: 8,
        width: 8,
        unit: Unit::Hertz,
        plain: false,
        two_state: false,
    };

    pub const LOW_FREQUENCY_LIMIT: Row = Row {
        dgn: 0x1FF86,
        first: 16,
        width: 8,
        unit: Unit::Hertz,
        plain: false,
        two_state: false,
    };
}

// 6.20.7 CHARGER_ACFAULT_CONFIGURATION_COMMAND_1
pub mod charger_acfault_configuration_command_1 {
    use crate::{Row, Unit};

    pub const INSTANCE: Row = Row {
        dgn: 0x1FF87,
        first: 0,
        width: 8,
        unit: Unit::Other,
        plain: false,
        two_state: false,
    };

    pub const EXTREME_LOW_VOLTAGE_LEVEL: Row = Row {
        dgn: 0x1FF87,
        first: 8,
        width: 8,
        unit: Unit::Volt,
        plain: false,
        two_state: false,
    };

    pub const LOW_VOLTAGE_LEVEL: Row = Row {
        dgn: 0x1FF87,
        first: 16,
        width: 8,
        unit: Unit::Volt,
        plain: false,
        two_state: false,
    };

    pub const HIGH_VOLTAGE_LEVEL: Row = Row {
        dgn: 0x1FF87,
        first: 24,
        width: 8,
        unit: Unit::Volt,
        plain: false,
        two_state: false,
    };

    pub const EXTREME_HIGH_VOLTAGE_LEVEL: Row = Row {
        dgn: 0x1FF87,
        first: 32,
        width: 8,
        unit: Unit::Volt,
        plain: false,
        two_state: false,
    };

    pub const QUALIFICATION_TIME: Row = Row {
        dgn: 0x1FF87,
        first: 40,
        width: 8,
        unit: Unit::Other,
        plain: false,
        two_state: false,
    };

    pub const BYPASS_MODE: Row = Row {
        dgn: 0x1FF87,
        first: 48,
        width: 2,
        unit: Unit::Other,
        plain: false,
        two_state: true,
    };
}

// 6.20.7 CHARGER_ACFAULT_CONFIGURATION_STATUS_2
pub mod charger_acfault_configuration_status_2 {
    use crate::{Row, Unit};

    pub const INSTANCE: Row = Row {
        dgn: 0x1FF88,
        first: 0,
        width: 8,
        unit: Unit::Other,
        plain: false,
        two_state: false,
    };

    pub const HIGH_FREQUENCY_LIMIT: Row = Row {
        dgn: 0x1FF88,
        first: 8,
        width: 8,
        unit: Unit::Hertz,
        plain: false,
        two_state: false,
    };

    pub const LOW_FREQUENCY_LIMIT: Row = Row {
        dgn: 0x1FF88,
        first: 16,
        width: 8,
        unit: Unit::Hertz,
        plain: false,
        two_state: false,
    };
}

// 6.20.7 CHARGER_ACFAULT_CONFIGURATION_STATUS_1
pub mod charger_acfault_configuration_status_1 {
    use crate::{Row, Unit};

    pub const INSTANCE: Row = Row {
        dgn: 0x1FF89,
        first: 0,
        width: 8,
        unit: Unit::Other,
        plain: false,
        two_state: false,
    };

    pub const EXTREME_LOW_VOLTAGE_LEVEL: Row = Row {
        dgn: 0x1FF89,
        first: 8,
        width: 8,
        unit: Unit::Volt,
        plain: false,
        two_state: false,
    };

    pub const LOW_VOLTAGE_LEVEL: Row = Row {
        dgn: 0x1FF89,
        first: 16,
        width: 8,
        unit: Unit::Volt,
        plain: false,
        two_state: false,
    };

    pub const HIGH_VOLTAGE_LEVEL: Row = Row {
        dgn: 0x1FF89,
        first: 24,
        width: 8,
        unit: Unit::Volt,
        plain: false,
        two_state: false,
    };

    pub const EXTREME_HIGH_VOLTAGE_LEVEL: Row = Row {
        dgn: 0x1FF89,
        first: 32,
        width: 8,
        unit: Unit::Volt,
        plain: false,
        two_state: false,
    };

    pub const QUALIFICATION_TIME: Row = Row {
        dgn: 0x1FF89,
        first: 40,
        width: 8,
        unit: Unit::Other,
        plain: false,
        two_state: false,
    };

    pub const BYPASS_MODE: Row = Row {
        dgn: 0x1FF89,
        first: 48,
        width: 2,
        unit: Unit::Other,
        plain: false,
        two_state: true,
    };
}

// 6.20.6 CHARGER_AC_STATUS_4
pub mod charger_ac_status_4 {
    use crate::{Row, Unit};

    pub const INSTANCE: Row = Row {
        dgn: 0x1FF8A,
        first: 0,
        width: 8,
        unit: Unit::Other,
        plain: false,
        two_state: false,
    };

    pub const VOLTAGE_FAULT: Row = Row {
        dgn: 0x1FF8A,
        first: 8,
        width: 8,
        unit: Unit::Other,
        plain: false,
        two_state: false,
    };

    pub const FAULT_SURGE_PROTECTION: Row = Row {
        dgn: 0x1FF8A,
        first: 16,
        width: 2,
        unit: Unit::Other,
        plain: false,
        two_state: true,
    };

    pub const FAULT_HIGH_FREQUENCY: Row = Row {
        dgn: 0x1FF8A,
        first: 18,
        width: 2,
        unit: Unit::Other,
        plain: false,
        two_state: true,
    };

    pub const FAULT_LOW_FREQUENCY: Row = Row {
        dgn: 0x1FF8A,
        first: 20,
        width: 2,
        unit: Unit::Other,
        plain: false,
        two_state: true,
    };

    pub const BYPASS_MODE_ACTIVE: Row = Row {
        dgn: 0x1FF8A,
        first: 22,
        width: 2,
        unit: Unit::Other,
        plain: false,
        two_state: true,
    };

    pub const QUALIFICATION_STATUS: Row = Row {
        dgn: 0x1FF8A,
        first: 24,
        width: 4,
        unit: Unit::Other,
        plain: false,
        two_state: false,
    };
}

// 6.20.15 CHARGER_CONFIGURATION_COMMAND_2
pub mod charger_configuration_command_2 {
    use crate::{Row, Unit};

    pub const INSTANCE: Row = Row {
        dgn: 0x1FF95,
        first: 0,
        width: 8,
        unit: Unit::Other,
        plain: false,
        two_state: false,
    };

    pub const MAXIMUM_CHARGE_CURRENT_AS_PERCENT: Row = Row {
        dgn: 0x1FF95,
        first: 8,
        width: 8,
        unit: Unit::Percent,
        plain: false,
        two_state: false,
    };

    pub const CHARGE_RATE_LIMIT_AS_PERCENT_OF_BANK_SIZE: Row = Row {
        dgn: 0x1FF95,
        first: 16,
        width: 8,
        unit: Unit::Percent,
        plain: false,
        two_state: false,
    };

    pub const SHORE_BREAKER_SIZE: Row = Row {
        dgn: 0x1FF95,
        first: 24,
        width: 8,
        unit: Unit::Ampere,
        plain: false,
        two_state: false,
    };

    pub const DEFAULT_BATTERY_TEMPERATURE: Row = Row {
        dgn: 0x1FF95,
        first: 32,
        width: 8,
        unit: Unit::Celsius,
        plain: false,
        two_state: false,
    };

    pub const RECHARGE_VOLTAGE: Row = Row {
        dgn: 0x1FF95,
        first: 40,
        width: 16,
        unit: Unit::Volt,
        plain: false,
        two_state: false,
    };
}

// 6.20.14 CHARGER_CONFIGURATION_STATUS_2
pub mod charger_configuration_status_2 {
    use crate::{Row, Unit};

    pub const INSTANCE: Row = Row {
        dgn: 0x1FF96,
        first: 0,
        width: 8,
        unit: Unit::Other,
        plain: false,
        two_state: false,
    };

    pub const MAXIMUM_CHARGE_CURRENT_AS_PERCENT: Row = Row {
        dgn: 0x1FF96,
        first: 8,
        width: 8,
        unit: Unit::Percent,
        plain: false,
        two_state: false,
    };

    pub const CHARGE_RATE_LIMIT_AS_PERCENT_OF_BANK_SIZE: Row = Row {
        dgn: 0x1FF96,
        first: 16,
        width: 8,
        unit: Unit::Percent,
        plain: false,
        two_state: false,
    };

    pub const SHORE_BREAKER_SIZE: Row = Row {
        dgn: 0x1FF96,
        first: 24,
        width: 8,
        unit: Unit::Ampere,
        plain: false,
        two_state: false,
    };

    pub const DEFAULT_BATTERY_TEMPERATURE: Row = Row {
        dgn: 0x1FF96,
        first: 32,
        width: 8,
        unit: Unit::Celsius,
        plain: false,
        two_state: false,
    };

    pub const RECHARGE_VOLTAGE: Row = Row {
        dgn: 0x1FF96,
        first: 40,
        width: 16,
        unit: Unit::Volt,
        plain: false,
        two_state: false,
    };
}

// 6.20.23 CHARGER_EQUALIZATION_CONFIGURATION_COMMAND
pub mod charger_equalization_configuration_command {
    use crate::{Row, Unit};

    pub const INSTANCE: Row = Row {
        dgn: 0x1FF97,
        first: 0,
        width: 8,
        unit: Unit::Other,
        plain: false,
        two_state: false,
    };

    pub const EQUALIZATION_VOLTAGE: Row = Row {
        dgn: 0x1FF97,
        first: 8,
        width: 16,
        unit: Unit::Volt,
        plain: false,
        two_state: false,
    };

    pub const EQUALIZATION_TIME: Row = Row {
        dgn: 0x1FF97,
        first: 24,
        width: 16,
        unit: Unit::Other,
        plain: false,
        two_state: false,
    };
}

// 6.20.22 CHARGER_EQUALIZATION_CONFIGURATION_STATUS
pub mod charger_equalization_configuration_status {
    use crate::{Row, Unit};

    pub const INSTANCE: Row = Row {
        dgn: 0x1FF98,
        first: 0,
        width: 8,
        unit: Unit::Other,
        plain: false,
        two_state: false,
    };

    pub const EQUALIZATION_VOLTAGE: Row = Row {
        dgn: 0x1FF98,
        first: 8,
        width: 16,
        unit: Unit::Volt,
        plain: false,
        two_state: false,
    };

    pub const EQUALIZATION_TIME: Row = Row {
        dgn: 0x1FF98,
        first: 24,
        width: 16,
        unit: Unit::Other,
        plain: false,
        two_state: false,
    };
}

// 6.20.21 CHARGER_EQUALIZATION_STATUS
pub mod charger_equalization_status {
    use crate::{Row, Unit};

    pub const INSTANCE: Row = Row {
        dgn: 0x1FF99,
        first: 0,
        width: 8,
        unit: Unit::Other,
        plain: false,
        two_state: false,
    };

    pub const TIME_REMAINING: Row = Row {
        dgn: 0x1FF99,
        first: 8,
        width: 16,
        unit: Unit::Other,
        plain: false,
        two_state: false,
    };

    pub const PRE_CHARGING_STATUS: Row = Row {
        dgn: 0x1FF99,
        first: 24,
        width: 2,
        unit: Unit::Other,
        plain: false,
        two_state: true,
    };
}

// 6.17.6 HEAT_PUMP_COMMAND
pub mod heat_pump_command {
    use crate::{Row, Unit};

    pub const INSTANCE: Row = Row {
        dgn: 0x1FF9A,
        first: 0,
        width: 8,
        unit: Unit::Other,
        plain: false,
        two_state: false,
    };

    pub const OPERATING_MODE: Row = Row {
        dgn: 0x1FF9A,
        first: 8,
        width: 8,
        unit: Unit::Other,
        plain: false,
        two_state: false,
    };

    pub const MAX_HEAT_OUTPUT_LEVEL: Row = Row {
        dgn: 0x1FF9A,
        first: 16,
        width: 8,
        unit: Unit::Percent,
        plain: false,
        two_state: false,
    };

    pub const HEAT_OUTPUT_LEVEL: Row = Row {
        dgn: 0x1FF9A,
        first: 24,
        width: 8,
        unit: Unit::Percent,
        plain: false,
        two_state: false,
    };

    pub const DEAD_BAND: Row = Row {
        dgn: 0x1FF9A,
        first: 32,
        width: 8,
        unit: Unit::Other,
        plain: false,
        two_state: false,
    };

    pub const SECOND_STAGE_DEAD_BAND: Row = Row {
        dgn: 0x1FF9A,
        first: 40,
        width: 8,
        unit: Unit::Other,
        plain: false,
        two_state: false,
    };

    pub const FAN_SPEED: Row = Row {
        dgn: 0x1FF9A,
        first: 48,
        width: 8,
        unit: Unit::Percent,
        plain: false,
        two_state: false,
    };
}

// 6.17.5 HEAT_PUMP_STATUS
pub mod heat_pump_status {
    use crate::{Row, Unit};

    pub const INSTANCE: Row = Row {
        dgn: 0x1FF9B,
        first: 0,
        width: 8,
        unit: Unit::Other,
        plain: false,
        two_state: false,
    };

    pub const OPERATING_MODE: Row = Row {
        dgn: 0x1FF9B,
        first: 8,
        width: 8,
        unit: Unit::Other,
        plain: false,
        two_state: false,
    };

    pub const MAX_HEAT_OUTPUT_LEVEL: Row = Row {
        dgn: 0x1FF9B,
        first: 16,
        width: 8,
        unit: Unit::Percent,
        plain: false,
        two_state: false,
    };

    pub const HEAT_OUTPUT_LEVEL: Row = Row {
        dgn: 0x1FF9B,
        first: 24,
        width: 8,
        unit: Unit::Percent,
        plain: false,
        two_state: false,
    };

    pub const DEAD_BAND: Row = Row {
        dgn: 0x1FF9B,
        first: 32,
        width: 8,
        unit: Unit::Other,
        plain: false,
        two_state: false,
    };

    pub const SECOND_STAGE_DEAD_BAND: Row = Row {
        dgn: 0x1FF9B,
        first: 40,
        width: 8,
        unit: Unit::Other,
        plain: false,
        two_state: false,
    };

    pub const FAN_SPEED: Row = Row {
        dgn: 0x1FF9B,
        first: 48,
        width: 8,
        unit: Unit::Percent,
        plain: false,
        two_state: false,
    };
}

// 6.16.11 THERMOSTAT_AMBIENT_STATUS
pub mod thermostat_ambient_status {
    use crate::{Row, Unit};

    pub const INSTANCE: Row = Row {
        dgn: 0x1FF9C,
        first: 0,
        width: 8,
        unit: Unit::Other,
        plain: false,
        two_state: false,
    };

    pub const AMBIENT_TEMP: Row = Row {
        dgn: 0x1FF9C,
        first: 8,
        width: 16,
        unit: Unit::Celsius,
        plain: false,
        two_state: false,
    };
}

// 6.29.3 WATER_PUMP_COMMAND
pub mod water_pump_command {
    use crate::{Row, Unit};

    pub const COMMAND: Row = Row {
        dgn: 0x1FFB2,
        first: 0,
        width: 2,
        unit: Unit::Other,
        plain: false,
        two_state: true,
    };

    pub const PUMP_PRESSURE_SETTING: Row = Row {
        dgn: 0x1FFB2,
        first: 8,
        width: 16,
        unit: Unit::Other,
        plain: false,
        two_state: false,
    };

    pub const REGULATOR_PRESSURE_SETTING: Row = Row {
        dgn: 0x1FFB2,
        first: 24,
        width: 16,
        unit: Unit::Other,
        plain: false,
        two_state: false,
    };
}

// 6.29.2 WATER_PUMP_STATUS
pub mod water_pump_status {
    use crate::{Row, Unit};

    pub const OPERATING_STATUS: Row = Row {
        dgn: 0x1FFB3,
        first: 0,
        width: 2,
        unit: Unit::Other,
        plain: false,
        two_state: true,
    };

    pub const PUMP_STATUS: Row = Row {
        dgn: 0x1FFB3,
        first: 2,
        width: 2,
        unit: Unit::Other,
        plain: false,
        two_state: true,
    };

    pub const WATER_HOOKUP_DETECTED: Row = Row {
        dgn: 0x1FFB3,
        first: 4,
        width: 2,
        unit: Unit::Other,
        plain: false,
        two_state: true,
    };

    pub const CURRENT_SYSTEM_PRESSURE: Row = Row {
        dgn: 0x1FFB3,
        first: 8,
        width: 16,
        unit: Unit::Other,
        plain: false,
        two_state: false,
    };

    pub const PUMP_PRESSURE_SETTING: Row = Row {
        dgn: 0x1FFB3,
        first: 24,
        width: 16,
        unit: Unit::Other,
        plain: false,
        two_state: false,
    };

    pub const REGULATOR_PRESSURE_SETTING: Row = Row {
        dgn: 0x1FFB3,
        first: 40,
        width: 16,
        unit: Unit::Other,
        plain: false,
        two_state: false,
    };

    pub const OPERATING_CURRENT: Row = Row {
        dgn: 0x1FFB3,
        first: 56,
        width: 8,
        unit: Unit::Ampere,
        plain: false,
        two_state: false,
    };
}

// 6.28.3 TANK_CALIBRATION_COMMAND
pub mod tank_calibration_command {
    use crate::{Row, Unit};

    pub const INSTANCE: Row = Row {
        dgn: 0x1FFB6,
        first: 0,
        width: 8,
        unit: Unit::Other,
        plain: false,
        two_state: false,
    };

    pub const RELATIVE_LEVEL: Row = Row {
        dgn: 0x1FFB6,
        first: 8,
        width: 8,
        unit: Unit::Other,
        plain: false,
        two_state: false,
    };

    pub const RESOLUTION: Row = Row {
        dgn: 0x1FFB6,
        first: 16,
        width: 8,
        unit: Unit::Other,
        plain: false,
        two_state: false,
    };

    pub const ABSOLUTE_LEVEL: Row = Row {
        dgn: 0x1FFB6,
        first: 24,
        width: 16,
        unit: Unit::Other,
        plain: false,
        two_state: false,
    };

    pub const TANK_SIZE: Row = Row {
        dgn: 0x1FFB6,
        first: 40,
        width: 16,
        unit: Unit::Other,
        plain: false,
        two_state: false,
    };
}

// 6.28.2 TANK_STATUS
pub mod tank_status {
    use crate::{Row, Unit};

    pub const INSTANCE: Row = Row {
        dgn: 0x1FFB7,
        first: 0,
        width: 8,
        unit: Unit::Other,
        plain: false,
        two_state: false,
    };

    pub const RELATIVE_LEVEL: Row = Row {
        dgn: 0x1FFB7,
        first: 8,
        width: 8,
        unit: Unit::Other,
        plain: false,
        two_state: false,
    };

    pub const RESOLUTION: Row = Row {
        dgn: 0x1FFB7,
        first: 16,
        width: 8,
        unit: Unit::Other,
        plain: false,
        two_state: false,
    };

    pub const ABSOLUTE_LEVEL: Row = Row {
        dgn: 0x1FFB7,
        first: 24,
        width: 16,
        unit: Unit::Other,
        plain: false,
        two_state: false,
    };

    pub const TANK_SIZE: Row = Row {
        dgn: 0x1FFB7,
        first: 40,
        width: 16,
        unit: Unit::Other,
        plain: false,
        two_state: false,
    };
}

// 6.20.27 CHARGEROPS_STATUS
pub mod chargerops_status {
    use crate::{Row, Unit};

    pub const INSTANCE: Row = Row {
        dgn: 0x1FFC0,
        first: 0,
        width: 8,
        unit: Unit::Other,
        plain: false,
        two_state: false,
    };

    pub const TOTAL_INSTANCE_COUNT: Row = Row {
        dgn: 0x1FFC0,
        first: 8,
        width: 8,
        unit: Unit::Other,
        plain: false,
        two_state: false,
    };

    pub const VOLTAGE: Row = Row {
        dgn: 0x1FFC0,
        first: 16,
        width: 16,
        unit: Unit::Volt,
        plain: false,
        two_state: false,
    };

    pub const CURRENT: Row = Row {
        dgn: 0x1FFC0,
        first: 32,
        width: 16,
        unit: Unit::Ampere,
        plain: false,
        two_state: false,
    };

    pub const TEMPERATURE: Row = Row {
        dgn: 0x1FFC0,
        first: 48,
        width: 8,
        unit: Unit::Celsius,
        plain: false,
        two_state: false,
    };
}

// 6.20.26 CHARGERDCBUS_STATUS
pub mod chargerdcbus_status {
    use crate::{Row, Unit};

    pub const INSTANCE: Row = Row {
        dgn: 0x1FFC1,
        first: 0,
        width: 8,
        unit: Unit::Other,
        plain: false,
        two_state: false,
    };

    pub const TOTAL_INSTANCE_COUNT: Row = Row {
        dgn: 0x1FFC1,
        first: 8,
        width: 8,
        unit: Unit::Other,
        plain: false,
        two_state: false,
    };

    pub const VOLTAGE: Row = Row {
        dgn: 0x1FFC1,
        first: 16,
        width: 16,
        unit: Unit::Volt,
        plain: false,
        two_state: false,
    };

    pub const CURRENT: Row = Row {
        dgn: 0x1FFC1,
        first: 32,
        width: 16,
        unit: Unit::Ampere,
        plain: false,
        two_state: false,
    };

    pub const TEMPERATURE: Row = Row {
        dgn: 0x1FFC1,
        first: 48,
        width: 8,
        unit: Unit::Celsius,
        plain: false,
        two_state: false,
    };
}

// 6.20.13 CHARGER_CONFIGURATION_COMMAND
pub mod charger_configuration_command {
    use crate::{Row, Unit};

    pub const INSTANCE: Row = Row {
        dgn: 0x1FFC4,
        first: 0,
        width: 8,
        unit: Unit::Other,
        plain: false,
        two_state: false,
    };

    pub const CHARGING_ALGORITHM: Row = Row {
        dgn: 0x1FFC4,
        first: 8,
        width: 8,
        unit: Unit::Other,
        plain: false,
        two_state: false,
    };

    pub const CHARGER_MODE: Row = Row {
        dgn: 0x1FFC4,
        first: 16,
        width: 8,
        unit: Unit::Other,
        plain: false,
        two_state: false,
    };

    pub const BATTERY_SENSOR_PRESENT: Row = Row {
        dgn: 0x1FFC4,
        first: 24,
        width: 2,
        unit: Unit::Other,
        plain: false,
        two_state: true,
    };

    pub const CHARGER_INSTALLATION_LINE: Row = Row {
        dgn: 0x1FFC4,
        first: 26,
        width: 2,
        unit: Unit::Other,
        plain: false,
        two_state: true,
    };

    pub const BATTERY_BANK_SIZE: Row = Row {
        dgn: 0x1FFC4,
        first: 32,
        width: 16,
        unit: Unit::Other,
        plain: false,
        two_state: false,
    };

    pub const BATTERY_TYPE: Row = Row {
        dgn: 0x1FFC4,
        first: 48,
        width: 4,
        unit: Unit::Other,
        plain: false,
        two_state: false,
    };

    pub const MAXIMUM_CHARGING_CURRENT: Row = Row {
        dgn: 0x1FFC4,
        first: 56,
        width: 8,
        unit: Unit::Ampere,
        plain: false,
        two_state: false,
    };
}

// 6.20.12 CHARGER_COMMAND
pub mod charger_command {
    use crate::{Row, Unit};

    pub const INSTANCE: Row = Row {
        dgn: 0x1FFC5,
        first: 0,
        width: 8,
        unit: Unit::Other,
        plain: false,
        two_state: false,
    };

    pub const STATUS: Row = Row {
        dgn: 0x1FFC5,
        first: 8,
        width: 8,
        unit: Unit::Other,
        plain: false,
        two_state: false,
    };

    pub const DEFAULT_STATE_ON_POWER_UP: Row = Row {
        dgn: 0x1FFC5,
        first: 16,
        width: 2,
        unit: Unit::Other,
        plain: false,
        two_state: true,
    };

    pub const AUTO_RECHARGE_ENABLE: Row = Row {
        dgn: 0x1FFC5,
        first: 18,
        width: 2,
        unit: Unit::Other,
        plain: false,
        two_state: true,
    };

    pub const FORCE_CHARGE: Row = Row {
        dgn: 0x1FFC5,
        first: 20,
        width: 4,
        unit: Unit::Other,
        plain: false,
        two_state: false,
    };

    pub const CONTROL_VOLTAGE_FOR_CC_CV_MODE: Row = Row {
        dgn: 0x1FFC5,
        first: 24,
        width: 16,
        unit: Unit::Volt,
        plain: false,
        two_state: false,
    };

    pub const CONTROL_CURRENT_FOR_CC_CV_MODE: Row = Row {
        dgn: 0x1FFC5,
        first: 40,
        width: 16,
        unit: Unit::Ampere,
        plain: false,
        two_state: false,
    };
}

// 6.20.11 CHARGER_CONFIGURATION_STATUS
pub mod charger_configuration_status {
    use crate::{Row, Unit};

    pub const INSTANCE: Row = Row {
        dgn: 0x1FFC6,
        first: 0,
        width: 8,
        unit: Unit::Other,
        plain: false,
        two_state: false,
    };

    pub const CHARGING_ALGORITHM: Row = Row {
        dgn: 0x1FFC6,
        first: 8,
        width: 8,
        unit: Unit::Other,
        plain: false,
        two_state: false,
    };

    pub const CHARGER_MODE: Row = Row {
        dgn: 0x1FFC6,
        first: 16,
        width: 8,
        unit: Unit::Other,
        plain: false,
        two_state: false,
    };

    pub const BATTERY_SENSOR_PRESENT: Row = Row {
        dgn: 0x1FFC6,
        first: 24,
        width: 2,
        unit: Unit::Other,
        plain: false,
        two_state: true,
    };

    pub const CHARGER_INSTALLATION_LINE: Row = Row {
        dgn: 0x1FFC6,
        first: 26,
        width: 2,
        unit: Unit::Other,
        plain: false,
        two_state: true,
    };

    pub const BATTERY_TYPE: Row = Row {
        dgn: 0x1FFC6,
        first: 28,
        width: 4,
        unit: Unit::Other,
        plain: false,
        two_state: false,
    };

    pub const BATTERY_BANK_SIZE: Row = Row {
        dgn: 0x1FFC6,
        first: 32,
        width: 16,
        unit: Unit::Other,
        plain: false,
        two_state: false,
    };

    pub const MAXIMUM_CHARGING_CURRENT: Row = Row {
        dgn: 0x1FFC6,
        first: 48,
        width: 16,
        unit: Unit::Ampere,
        plain: false,
        two_state: false,
    };
}

// 6.20.8 CHARGER_STATUS
pub mod charger_status {
    use crate::{Row, Unit};

    pub const INSTANCE: Row = Row {
        dgn: 0x1FFC7,
        first: 0,
        width: 8,
        unit: Unit::Other,
        plain: false,
        two_state: false,
    };

    pub const CHARGE_VOLTAGE: Row = Row {
        dgn: 0x1FFC7,
        first: 8,
        width: 16,
        unit: Unit::Volt,
        plain: false,
        two_state: false,
    };

    pub const CHARGE_CURRENT: Row = Row {
        dgn: 0x1FFC7,
        first: 24,
        width: 16,
        unit: Unit::Ampere,
        plain: false,
        two_state: false,
    };

    pub const CHARGE_CURRENT_PERCENT_OF_MAXIMUM: Row = Row {
        dgn: 0x1FFC7,
        first: 40,
        width: 8,
        unit: Unit::Percent,
        plain: false,
        two_state: false,
    };

    pub const OPERATING_STATE: Row = Row {
        dgn: 0x1FFC7,
        first: 48,
        width: 8,
        unit: Unit::Other,
        plain: false,
        two_state: false,
    };

    pub const DEFAULT_STATE_ON_POWER_UP: Row = Row {
        dgn: 0x1FFC7,
        first: 56,
        width: 2,
        unit: Unit::Other,
        plain: false,
        two_state: true,
    };

    pub const AUTO_RECHARGE_ENABLE: Row = Row {
        dgn: 0x1FFC7,
        first: 58,
        width: 2,
        unit: Unit::Other,
        plain: false,
        two_state: true,
    };

    pub const FORCE_CHARGE: Row = Row {
        dgn: 0x1FFC7,
        first: 60,
        width: 4,
        unit: Unit::Other,
        plain: false,
        two_state: false,
    };
}

// 6.20.5 CHARGER_AC_STATUS_3
pub mod charger_ac_status_3 {
    use crate::{Row, Unit};

    pub const INSTANCE: Row = Row {
        dgn: 0x1FFC8,
        first: 0,
        width: 8,
        unit: Unit::Other,
        plain: false,
        two_state: false,
    };

    pub const WAVEFORM: Row = Row {
        dgn: 0x1FFC8,
        first: 8,
        width: 2,
        unit: Unit::Other,
        plain: false,
        two_state: true,
    };

    pub const REAL_POWER: Row = Row {
        dgn: 0x1FFC8,
        first: 16,
        width: 16,
        unit: Unit::Other,
        plain: false,
        two_state: false,
    };

    pub const REACTIVE_POWER: Row = Row {
        dgn: 0x1FFC8,
        first: 32,
        width: 16,
        unit: Unit::Other,
        plain: false,
        two_state: false,
    };

    pub const HARMONIC_DISTORTION: Row = Row {
        dgn: 0x1FFC8,
        first: 48,
        width: 8,
        unit: Unit::Percent,
        plain: false,
        two_state: false,
    };

    pub const COMPLEMENTARY_LEG: Row = Row {
        dgn: 0x1FFC8,
        first: 56,
        width: 8,
        unit: Unit::Other,
        plain: false,
        two_state: false,
    };
}

// 6.20.4 CHARGER_AC_STATUS_2
pub mod charger_ac_status_2 {
    use crate::{Row, Unit};

    pub const INSTANCE: Row = Row {
        dgn: 0x1FFC9,
        first: 0,
        width: 8,
        unit: Unit::Other,
        plain: false,
        two_state: false,
    };

    pub const PEAK_VOLTAGE: Row = Row {
        dgn: 0x1FFC9,
        first: 8,
        width: 16,
        unit: Unit::Volt,
        plain: false,
        two_state: false,
    };

    pub const PEAK_CURRENT: Row = Row {
        dgn: 0x1FFC9,
        first: 24,
        width: 16,
        unit: Unit::Ampere,
        plain: false,
        two_state: false,
    };

    pub const GROUND_CURRENT: Row = Row {
        dgn: 0x1FFC9,
        first: 40,
        width: 16,
        unit: Unit::Ampere,
        plain: false,
        two_state: false,
    };

    pub const CAPACITY: Row = Row {
        dgn: 0x1FFC9,
        first: 56,
        width: 8,
        unit: Unit::Ampere,
        plain: false,
        two_state: false,
    };
}

// 6.20.3 CHARGER_AC_STATUS_1
pub mod charger_ac_status_1 {
    use crate::{Row, Unit};

    pub const INSTANCE: Row = Row {
        dgn: 0x1FFCA,
        first: 0,
        width: 8,
        unit: Unit::Other,
        plain: false,
        two_state: false,
    };

    pub const RMS_VOLTAGE: Row = Row {
        dgn: 0x1FFCA,
        first: 8,
        width: 16,
        unit: Unit::Volt,
        plain: false,
        two_state: false,
    };

    pub const RMS_CURRENT: Row = Row {
        dgn: 0x1FFCA,
        first: 24,
        width: 16,
        unit: Unit::Ampere,
        plain: false,
        two_state: false,
    };

    pub const FREQUENCY: Row = Row {
        dgn: 0x1FFCA,
        first: 40,
        width: 16,
        unit: Unit::Hertz,
        plain: false,
        two_state: false,
    };

    pub const FAULT_OPEN_GROUND: Row = Row {
        dgn: 0x1FFCA,
        first: 56,
        width: 2,
        unit: Unit::Other,
        plain: false,
        two_state: true,
    };

    pub const FAULT_OPEN_NEUTRAL: Row = Row {
        dgn: 0x1FFCA,
        first: 58,
        width: 2,
        unit: Unit::Other,
        plain: false,
        two_state: true,
    };

    pub const FAULT_REVERSE_POLARITY: Row = Row {
        dgn: 0x1FFCA,
        first: 60,
        width: 2,
        unit: Unit::Other,
        plain: false,
        two_state: true,
    };

    pub const FAULT_GROUND_CURRENT: Row = Row {
        dgn: 0x1FFCA,
        first: 62,
        width: 2,
        unit: Unit::Other,
        plain: false,
        two_state: true,
    };
}

// 6.17.4 AIR_CONDITIONER_COMMAND
pub mod air_conditioner_command {
    use crate::{Row, Unit};

    pub const INSTANCE: Row = Row {
        dgn: 0x1FFE0,
        first: 0,
        width: 8,
        unit: Unit::Other,
        plain: false,
        two_state: false,
    };

    pub const OPERATING_MODE: Row = Row {
        dgn: 0x1FFE0,
        first: 8,
        width: 8,
        unit: Unit::Other,
        plain: false,
        two_state: false,
    };

    pub const MAX_FAN_SPEED: Row = Row {
        dgn: 0x1FFE0,
        first: 16,
        width: 8,
        unit: Unit::Percent,
        plain: false,
        two_state: false,
    };

    pub const MAX_AIR_CONDITIONING_OUTPUT_LEVEL: Row = Row {
        dgn: 0x1FFE0,
        first: 24,
        width: 8,
        unit: Unit::Percent,
        plain: false,
        two_state: false,
    };

    pub const FAN_SPEED: Row = Row {
        dgn: 0x1FFE0,
        first: 32,
        width: 8,
        unit: Unit::Percent,
        plain: false,
        two_state: false,
    };

    pub const AIR_CONDITIONING_OUTPUT_LEVEL: Row = Row {
        dgn: 0x1FFE0,
        first: 40,
        width: 8,
        unit: Unit::Percent,
        plain: false,
        two_state: false,
    };

    pub const DEAD_BAND: Row = Row {
        dgn: 0x1FFE0,
        first: 48,
        width: 8,
        unit: Unit::Other,
        plain: false,
        two_state: false,
    };

    pub const SECOND_STAGE_DEAD_BAND: Row = Row {
        dgn: 0x1FFE0,
        first: 56,
        width: 8,
        unit: Unit::Other,
        plain: false,
        two_state: false,
    };
}

// 6.17.2 AIR_CONDITIONER_STATUS
pub mod air_conditioner_status {
    use crate::{Row, Unit};

    pub const INSTANCE: Row = Row {
        dgn: 0x1FFE1,
        first: 0,
        width: 8,
        unit: Unit::Other,
        plain: false,
        two_state: false,
    };

    pub const OPERATING_MODE: Row = Row {
        dgn: 0x1FFE1,
        first: 8,
        width: 8,
        unit: Unit::Other,
        plain: false,
        two_state: false,
    };

    pub const MAX_FAN_SPEED: Row = Row {
        dgn: 0x1FFE1,
        first: 16,
        width: 8,
        unit: Unit::Percent,
        plain: false,
        two_state: false,
    };

    pub const MAX_AIR_CONDITIONING_OUTPUT_LEVEL: Row = Row {
        dgn: 0x1FFE1,
        first: 24,
        width: 8,
        unit: Unit::Percent,
        plain: false,
        two_state: false,
    };

    pub const FAN_SPEED: Row = Row {
        dgn: 0x1FFE1,
        first: 32,
        width: 8,
        unit: Unit::Percent,
        plain: false,
        two_state: false,
    };

    pub const AIR_CONDITIONING_OUTPUT_LEVEL: Row = Row {
        dgn: 0x1FFE1,
        first: 40,
        width: 8,
        unit: Unit::Percent,
        plain: false,
        two_state: false,
    };

    pub const DEAD_BAND: Row = Row {
        dgn: 0x1FFE1,
        first: 48,
        width: 8,
        unit: Unit::Other,
        plain: false,
        two_state: false,
    };

    pub const SECOND_STAGE_DEAD_BAND: Row = Row {
        dgn: 0x1FFE1,
        first: 56,
        width: 8,
        unit: Unit::Other,
        plain: false,
        two_state: false,
    };
}

// 6.16.2 THERMOSTAT_STATUS_1
pub mod thermostat_status_1 {
    use crate::{Row, Unit};

    pub const INSTANCE: Row = Row {
        dgn: 0x1FFE2,
        first: 0,
        width: 8,
        unit: Unit::Other,
        plain: false,
        two_state: false,
    };

    pub const OPERATING_MODE: Row = Row {
        dgn: 0x1FFE2,
        first: 8,
        width: 4,
        unit: Unit::Other,
        plain: false,
        two_state: false,
    };

    pub const FAN_MODE: Row = Row {
        dgn: 0x1FFE2,
        first: 12,
        width: 2,
        unit: Unit::Other,
        plain: false,
        two_state: true,
    };

    pub const SCHEDULE_MODE: Row = Row {
        dgn: 0x1FFE2,
        first: 14,
        width: 2,
        unit: Unit::Other,
        plain: false,
        two_state: true,
    };

    pub const FAN_SPEED: Row = Row {
        dgn: 0x1FFE2,
        first: 16,
        width: 8,
        unit: Unit::Percent,
        plain: false,
        two_state: false,
    };

    pub const SETPOINT_TEMP_HEAT: Row = Row {
        dgn: 0x1FFE2,
        first: 24,
        width: 16,
        unit: Unit::Celsius,
        plain: false,
        two_state: false,
    };

    pub const SETPOINT_TEMP_COOL: Row = Row {
        dgn: 0x1FFE2,
        first: 40,
        width: 16,
        unit: Unit::Celsius,
        plain: false,
        two_state: false,
    };
}

// 6.14.4 SLIDE_MOTOR_STATUS
pub mod slide_motor_status {
    use crate::{Row, Unit};

    pub const INSTANCE: Row = Row {
        dgn: 0x1FFE5,
        first: 0,
        width: 8,
        unit: Unit::Other,
        plain: false,
        two_state: false,
    };

    pub const VOLTAGE: Row = Row {
        dgn: 0x1FFE5,
        first: 8,
        width: 16,
        unit: Unit::Volt,
        plain: false,
        two_state: false,
    };

    pub const CURRENT_MOTOR_1: Row = Row {
        dgn: 0x1FFE5,
        first: 24,
        width: 8,
        unit: Unit::Ampere,
        plain: false,
        two_state: false,
    };

    pub const CURRENT_MOTOR_2: Row = Row {
        dgn: 0x1FFE5,
        first: 32,
        width: 8,
        unit: Unit::Ampere,
        plain: false,
        two_state: false,
    };

    pub const CURRENT_MOTOR_3: Row = Row {
        dgn: 0x1FFE5,
        first: 40,
        width: 8,
        unit: Unit::Ampere,
        plain: false,
        two_state: false,
    };

    pub const CURRENT_MOTOR_4: Row = Row {
        dgn: 0x1FFE5,
        first: 48,
        width: 8,
        unit: Unit::Ampere,
        plain: false,
        two_state: false,
    };
}

// 6.14.3 SLIDE_SENSOR_STATUS
pub mod slide_sensor_status {
    use crate::{Row, Unit};

    pub const INSTANCE: Row = Row {
        dgn: 0x1FFE6,
        first: 0,
        width: 8,
        unit: Unit::Other,
        plain: false,
        two_state: false,
    };

    pub const SLIDE_LOCK_LIMIT_SWITCH_UPPER_FRONT: Row = Row {
        dgn: 0x1FFE6,
        first: 8,
        width: 2,
        unit: Unit::Other,
        plain: false,
        two_state: true,
    };

    pub const SLIDE_LOCK_LIMIT_SWITCH_UPPER_REAR: Row = Row {
        dgn: 0x1FFE6,
        first: 10,
        width: 2,
        unit: Unit::Other,
        plain: false,
        two_state: true,
    };

    pub const SLIDE_LOCK_LIMIT_SWITCH_LOWER_FRONT: Row = Row {
        dgn: 0x1FFE6,
        first: 12,
        width: 2,
        unit: Unit::Other,
        plain: false,
        two_state: true,
    };

    pub const SLIDE_LOCK_LIMIT_SWITCH_LOWER_REAR: Row = Row {
        dgn: 0x1FFE6,
        first: 14,
        width: 2,
        unit: Unit::Other,
        plain: false,
        two_state: true,
    };

    pub const SLIDE_UNLOCK_LIMIT_SWITCH_UPPER_FRONT: Row = Row {
        dgn: 0x1FFE6,
        first: 16,
        width: 2,
        unit: Unit::Other,
        plain: false,
        two_state: true,
    };

    pub const SLIDE_UNLOCK_LIMIT_SWITCH_UPPER_REAR: Row = Row {
        dgn: 0x1FFE6,
        first: 18,
        width: 2,
        unit: Unit::Other,
        plain: false,
        two_state: true,
    };

    pub const SLIDE_UNLOCK_LIMIT_SWITCH_LOWER_FRONT: Row = Row {
        dgn: 0x1FFE6,
        first: 20,
        width: 2,
        unit: Unit::Other,
        plain: false,
        two_state: true,
    };

    pub const SLIDE_UNLOCK_LIMIT_SWITCH_LOWER_REAR: Row = Row {
        dgn: 0x1FFE6,
        first: 22,
        width: 2,
        unit: Unit::Other,
        plain: false,
        two_state: true,
    };

    pub const SLIDE_RETRACTION_LIMIT_SWITCH_UPPER_FRONT: Row = Row {
        dgn: 0x1FFE6,
        first: 24,
        width: 2,
        unit: Unit::Other,
        plain: false,
        two_state: true,
    };

    pub const SLIDE_RETRACTION_LIMIT_SWITCH_UPPER_REAR: Row = Row {
        dgn: 0x1FFE6,
        first: 26,
        width: 2,
        unit: Unit::Other,
        plain: false,
        two_state: true,
    };

    pub const SLIDE_RETRACTION_LIMIT_SWITCH_LOWER_FRONT: Row = Row {
        dgn: 0x1FFE6,
        first: 28,
        width: 2,
        unit: Unit::Other,
        plain: false,
        two_state: true,
    };

    pub const SLIDE_RETRACTION_LIMIT_SWITCH_LOWER_REAR: Row = Row {
        dgn: 0x1FFE6,
        first: 30,
        width: 2,
        unit: Unit::Other,
        plain: false,
        two_state: true,
    };

    pub const SLIDE_EXTENSION_LIMIT_SWITCH_UPPER_FRONT: Row = Row {
        dgn: 0x1FFE6,
        first: 32,
        width: 2,
        unit: Unit::Other,
        plain: false,
        two_state: true,
    };

    pub const SLIDE_EXTENSION_LIMIT_SWITCH_UPPER_REAR: Row = Row {
        dgn: 0x1FFE6,
        first: 34,
        width: 2,
        unit: Unit::Other,
        plain: false,
        two_state: true,
    };

    pub const SLIDE_EXTENSION_LIMIT_SWITCH_LOWER_FRONT: Row = Row {
        dgn: 0x1FFE6,
        first: 36,
        width: 2,
        unit: Unit::Other,
        plain: false,
        two_state: true,
    };

    pub const SLIDE_EXTENSION_LIMIT_SWITCH_LOWER_REAR: Row = Row {
        dgn: 0x1FFE6,
        first: 38,
        width: 2,
        unit: Unit::Other,
        plain: false,
        two_state: true,
    };

    pub const RETRACTABLE_FLOOR_LIMIT_SWITCH_UP: Row = Row {
        dgn: 0x1FFE6,
        first: 40,
        width: 2,
        unit: Unit::Other,
        plain: false,
        two_state: true,
    };

    pub const RETRACTABLE_FLOOR_LIMIT_SWITCH_DOWN: Row = Row {
        dgn: 0x1FFE6,
        first: 42,
        width: 2,
        unit: Unit::Other,
        plain: false,
        two_state: true,
    };

    pub const AIR_SEAL_VACUUM_SWITCH: Row = Row {
        dgn: 0x1FFE6,
        first: 48,
        width: 2,
        unit: Unit::Other,
        plain: false,
        two_state: true,
    };
}

// 6.14.2 SLIDE_COMMAND
pub mod slide_command {
    use crate::{Row, Unit};

    pub const INSTANCE: Row = Row {
        dgn: 0x1FFE7,
        first: 0,
        width: 8,
        unit: Unit::Other,
        plain: false,
        two_state: false,
    };

    pub const USER_LOCK: Row = Row {
        dgn: 0x1FFE7,
        first: 8,
        width: 2,
        unit: Unit::Other,
        plain: false,
        two_state: true,
    };

    pub const AIR_SEAL_DEFLATE: Row = Row {
        dgn: 0x1FFE7,
        first: 10,
        width: 2,
        unit: Unit::Other,
        plain: false,
        two_state: true,
    };

    pub const AIR_SEAL_VACUUM: Row = Row {
        dgn: 0x1FFE7,
        first: 12,
        width: 2,
        unit: Unit::Other,
        plain: false,
        two_state: true,
    };

    pub const MECHANICAL_LOCK: Row = Row {
        dgn: 0x1FFE7,
        first: 14,
        width: 2,
        unit: Unit::Other,
        plain: false,
        two_state: true,
    };

    pub const DIRECTION_OF_MOVEMENT: Row = Row {
        dgn: 0x1FFE7,
        first: 16,
        width: 8,
        unit: Unit::Other,
        plain: false,
        two_state: false,
    };
}

// 6.14.1 SLIDE_STATUS
pub mod slide_status {
    use crate::{Row, Unit};

    pub const INSTANCE: Row = Row {
        dgn: 0x1FFE8,
        first: 0,
        width: 8,
        unit: Unit::Other,
        plain: false,
        two_state: false,
    };

    pub const MOTION: Row = Row {
        dgn: 0x1FFE8,
        first: 8,
        width: 8,
        unit: Unit::Other,
        plain: false,
        two_state: false,
    };

    pub const POSITION: Row = Row {
        dgn: 0x1FFE8,
        first: 16,
        width: 8,
        unit: Unit::Percent,
        plain: false,
        two_state: false,
    };

    pub const LOCK_STATUS: Row = Row {
        dgn: 0x1FFE8,
        first: 24,
        width: 2,
        unit: Unit::Other,
        plain: false,
        two_state: true,
    };

    pub const UNLOCK_STATUS: Row = Row {
        dgn: 0x1FFE8,
        first: 26,
        width: 2,
        unit: Unit::Other,
        plain: false,
        two_state: true,
    };

    pub const USER_LOCK_STATUS: Row = Row {
        dgn: 0x1FFE8,
        first: 28,
        width: 2,
        unit: Unit::Other,
        plain: false,
        two_state: true,
    };

    pub const BRAKE_STATUS: Row = Row {
        dgn: 0x1FFE8,
        first: 30,
        width: 2,
        unit: Unit::Other,
        plain: false,
        two_state: true,
    };

    pub const PARK_BRAKE: Row = Row {
        dgn: 0x1FFE8,
        first: 32,
        width: 2,
        unit: Unit::Other,
        plain: false,
        two_state: true,
    };

    pub const LEVELING_JACKS: Row = Row {
        dgn: 0x1FFE8,
        first: 34,
        width: 2,
        unit: Unit::Other,
        plain: false,
        two_state: true,
    };

    pub const IGNITION_KEY: Row = Row {
        dgn: 0x1FFE8,
        first: 36,
        width: 2,
        unit: Unit::Other,
        plain: false,
        two_state: true,
    };

    pub const AIR_SEAL: Row = Row {
        dgn: 0x1FFE8,
        first: 38,
        width: 2,
        unit: Unit::Other,
        plain: false,
        two_state: true,
    };

    pub const LOW_VOLTAGE: Row = Row {
        dgn: 0x1FFE8,
        first: 40,
        width: 2,
        unit: Unit::Other,
        plain: false,
        two_state: true,
    };
}

// 6.9.3 WATERHEATER_COMMAND
pub mod waterheater_command {
    use crate::{Row, Unit};

    pub const INSTANCE: Row = Row {
        dgn: 0x1FFF6,
        first: 0,
        width: 8,
        unit: Unit::Other,
        plain: false,
        two_state: false,
    };

    pub const OPERATING_MODES: Row = Row {
        dgn: 0x1FFF6,
        first: 8,
        width: 8,
        unit: Unit::Other,
        plain: false,
        two_state: false,
    };

    pub const SET_POINT_TEMPERATURE: Row = Row {
        dgn: 0x1FFF6,
        first: 16,
        width: 16,
        unit: Unit::Celsius,
        plain: false,
        two_state: false,
    };

    pub const ELECTRIC_ELEMENT_LEVEL: Row = Row {
        dgn: 0x1FFF6,
        first: 48,
        width: 4,
        unit: Unit::Other,
        plain: false,
        two_state: false,
    };
}

// 6.9.2 WATERHEATER_STATUS
pub mod waterheater_status {
    use crate::{Row, Unit};

    pub const INSTANCE: Row = Row {
        dgn: 0x1FFF7,
        first: 0,
        width: 8,
        unit: Unit::Other,
        plain: false,
        two_state: false,
    };

    pub const OPERATING_MODES: Row = Row {
        dgn: 0x1FFF7,
        first: 8,
        width: 8,
        unit: Unit::Other,
        plain: false,
        two_state: false,
    };

    pub const SET_POINT_TEMPERATURE: Row = Row {
        dgn: 0x1FFF7,
        first: 16,
        width: 16,
        unit: Unit::Celsius,
        plain: false,
        two_state: false,
    };

    pub const WATER_TEMPERATURE: Row = Row {
        dgn: 0x1FFF7,
        first: 32,
        width: 16,
        unit: Unit::Celsius,
        plain: false,
        two_state: false,
    };

    pub const THERMOSTAT_STATUS: Row = Row {
        dgn: 0x1FFF7,
        first: 48,
        width: 2,
        unit: Unit::Other,
        plain: false,
        two_state: true,
    };

    pub const BURNER_STATUS: Row = Row {
        dgn: 0x1FFF7,
        first: 50,
        width: 2,
        unit: Unit::Other,
        plain: false,
        two_state: true,
    };

    pub const AC_ELEMENT_STATUS: Row = Row {
        dgn: 0x1FFF7,
        first: 52,
        width: 2,
        unit: Unit::Other,
        plain: false,
        two_state: true,
    };

    pub const HIGH_TEMPERATURE_LIMIT_SWITCH_STATUS: Row = Row {
        dgn: 0x1FFF7,
        first: 54,
        width: 2,
        unit: Unit::Other,
        plain: false,
        two_state: true,
    };

    pub const FAILURE_TO_IGNITE_STATUS: Row = Row {
        dgn: 0x1FFF7,
        first: 56,
        width: 2,
        unit: Unit::Other,
        plain: false,
        two_state: true,
    };

    pub const AC_POWER_FAILURE_STATUS: Row = Row {
        dgn: 0x1FFF7,
        first: 58,
        width: 2,
        unit: Unit::Other,
        plain: false,
        two_state: true,
    };

    pub const DC_POWER_FAILURE_STATUS: Row = Row {
        dgn: 0x1FFF7,
        first: 60,
        width: 2,
        unit: Unit::Other,
        plain: false,
        two_state: true,
    };

    pub const DC_POWER_WARNING_STATUS: Row = Row {
        dgn: 0x1FFF7,
        first: 62,
        width: 2,
        unit: Unit::Other,
        plain: false,
        two_state: true,
    };
}
