// Plans built by calls.
use plan::{Direction, Plan, PlanError, PlanFault, PlannedStation, StationField, Window};
use std::alloc::Global;
use std::test::Fail;
use units::{ImageBit, LinePosition};

fn window(first: u32, bits: u32) -> Window {
    Window {
        first: ImageBit(first),
        bits,
    }
}

fn outputs(first: u32, bits: u32) -> PlannedStation {
    PlannedStation::new().with_outputs(window(first, bits))
}

fn inputs(first: u32, bits: u32) -> PlannedStation {
    PlannedStation::new().with_inputs(window(first, bits))
}

fn mailbox(bytes: u32) -> PlannedStation {
    PlannedStation::new().with_mailbox(bytes)
}

fn out_of_range(position: u16, field: StationField) -> PlanError {
    PlanError::Refused(PlanFault::FieldOutOfRange {
        position: LinePosition(position),
        field,
    })
}

fn window_conflict(earlier: u16, later: u16) -> PlanFault {
    PlanFault::WindowConflict {
        earlier: LinePosition(earlier),
        later: LinePosition(later),
    }
}

fn conflict(earlier: u16, later: u16) -> PlanError {
    PlanError::Refused(window_conflict(earlier, later))
}

// The answer to one station in a new plan for 1,024 bytes.
fn alone(heap: Global, station: PlannedStation) -> Result<Result<(), PlanError>, Fail> {
    let mut plan = Plan::new(heap, 1024)?;
    Ok(plan.add(station))
}

#[test]
fn images_have_1_to_1024_bytes(rt: HostRuntime) {
    let heap = rt.alloc();
    assert!(rt; Plan::new(heap, 1).is_ok());
    assert!(rt; Plan::new(heap, 1024).is_ok());
    assert!(rt; Plan::new(heap, 0).is_err());
    assert!(rt; Plan::new(heap, 1025).is_err());
    assert_eq!(rt; PlanFault::ImageLength.number(), 6);
    assert_eq!(rt; PlanFault::ImageLength.place(), 0);
}

#[test]
fn windows_have_at_most_512_bits(rt: HostRuntime) -> Result<(), Fail> {
    let heap = rt.alloc();
    assert_eq!(rt; alone(heap, outputs(0, 512))?, Ok(()));
    assert_eq!(rt;
        alone(heap, outputs(0, 513))?,
        Err(out_of_range(0, StationField::Outputs))
    );
    assert_eq!(rt; alone(heap, inputs(7680, 512))?, Ok(()));
    assert_eq!(rt;
        alone(heap, inputs(0, 513))?,
        Err(out_of_range(0, StationField::Inputs))
    );
    assert_eq!(rt;
        alone(heap, inputs(0, 4294967295))?,
        Err(out_of_range(0, StationField::Inputs))
    );
    Ok(())
}

#[test]
fn no_bits_begin_at_bit_0(rt: HostRuntime) -> Result<(), Fail> {
    let heap = rt.alloc();
    assert_eq!(rt; alone(heap, outputs(0, 0))?, Ok(()));
    assert_eq!(rt;
        alone(heap, outputs(1, 0))?,
        Err(out_of_range(0, StationField::Outputs))
    );
    assert_eq!(rt;
        alone(heap, inputs(1, 0))?,
        Err(out_of_range(0, StationField::Inputs))
    );
    Ok(())
}

#[test]
fn mailboxes_have_16_to_128_bytes(rt: HostRuntime) -> Result<(), Fail> {
    let heap = rt.alloc();
    assert_eq!(rt; alone(heap, mailbox(0))?, Ok(()));
    assert_eq!(rt; alone(heap, mailbox(16))?, Ok(()));
    assert_eq!(rt; alone(heap, mailbox(128))?, Ok(()));
    assert_eq!(rt;
        alone(heap, mailbox(1))?,
        Err(out_of_range(0, StationField::Mailbox))
    );
    assert_eq!(rt;
        alone(heap, mailbox(15))?,
        Err(out_of_range(0, StationField::Mailbox))
    );
    assert_eq!(rt;
        alone(heap, mailbox(129))?,
        Err(out_of_range(0, StationField::Mailbox))
    );
    Ok(())
}

#[test]
fn a_plan_has_at_most_32_stations(rt: HostRuntime) -> Result<(), Fail> {
    let mut plan = Plan::new(rt.alloc(), 1)?;
    for _ in 0..32 {
        plan.add(mailbox(16))?;
    }
    let fault = PlanFault::TooManyStations {
        position: LinePosition(32),
    };
    assert_eq!(rt; plan.add(mailbox(16)), Err(PlanError::Refused(fault)));
    assert_eq!(rt; fault.number(), 6);
    assert_eq!(rt; fault.place(), 32);
    // too many comes before what else is wrong with it
    assert_eq!(rt; plan.add(outputs(0, 513)), Err(PlanError::Refused(fault)));
    assert_eq!(rt; plan.stations().len(), 32);
    Ok(())
}

#[test]
fn windows_stay_in_the_image(rt: HostRuntime) -> Result<(), Fail> {
    let mut plan = Plan::new(rt.alloc(), 2)?;
    plan.add(mailbox(16))?;
    assert_eq!(rt; plan.add(outputs(8, 9)), Err(conflict(1, 1)));
    assert_eq!(rt; plan.add(inputs(16, 1)), Err(conflict(1, 1)));
    assert_eq!(rt; plan.add(inputs(4294967295, 512)), Err(conflict(1, 1)));
    assert_eq!(rt; plan.add(outputs(8, 8)), Ok(()));
    assert_eq!(rt; plan.stations().len(), 2);
    Ok(())
}

#[test]
fn neighbours_share_no_bit(rt: HostRuntime) -> Result<(), Fail> {
    let mut plan = Plan::new(rt.alloc(), 1)?;
    plan.add(outputs(0, 4))?;
    assert_eq!(rt; plan.add(outputs(3, 4)), Err(conflict(0, 1)));
    assert_eq!(rt; plan.add(inputs(3, 1)), Err(conflict(0, 1)));
    assert_eq!(rt; plan.stations().len(), 1);
    assert_eq!(rt; plan.free_bits(), 4);
    assert_eq!(rt; plan.add(outputs(4, 4)), Ok(()));
    assert_eq!(rt; plan.free_bits(), 0);
    Ok(())
}

#[test]
fn the_first_station_met_is_named(rt: HostRuntime) -> Result<(), Fail> {
    let mut plan = Plan::new(rt.alloc(), 4)?;
    plan.add(outputs(0, 8))?;
    plan.add(inputs(8, 8))?;
    plan.add(outputs(16, 8))?;
    assert_eq!(rt;
        plan.add(outputs(23, 2).with_inputs(window(15, 1))),
        Err(conflict(1, 3))
    );
    // its own windows come last
    assert_eq!(rt;
        plan.add(outputs(23, 2).with_inputs(window(24, 2))),
        Err(conflict(2, 3))
    );
    assert_eq!(rt;
        plan.add(outputs(24, 2).with_inputs(window(25, 2))),
        Err(conflict(3, 3))
    );
    assert_eq!(rt; window_conflict(2, 3).place(), 3);
    Ok(())
}

#[test]
fn the_counter_is_1_for_inputs_and_2_for_outputs(rt: HostRuntime) -> Result<(), Fail> {
    let mut plan = Plan::new(rt.alloc(), 4)?;
    assert_eq!(rt; plan.expected_counter(), 0);
    plan.add(mailbox(16))?;
    assert_eq!(rt; plan.expected_counter(), 0);
    plan.add(inputs(0, 1))?;
    assert_eq!(rt; plan.expected_counter(), 1);
    plan.add(outputs(1, 1))?;
    assert_eq!(rt; plan.expected_counter(), 3);
    plan.add(outputs(2, 1).with_inputs(window(3, 1)))?;
    assert_eq!(rt; plan.expected_counter(), 6);
    Ok(())
}

#[test]
fn a_bit_has_one_owner(rt: HostRuntime) -> Result<(), Fail> {
    let mut plan = Plan::new(rt.alloc(), 1)?;
    plan.add(mailbox(16))?;
    plan.add(outputs(0, 5).with_inputs(window(5, 2)))?;
    let owner = plan.owner(ImageBit(4)).ok_or("bit 4 is free")?;
    assert_eq!(rt; owner.position.0, 1);
    assert!(rt; owner.direction == Direction::Output);
    let owner = plan.owner(ImageBit(5)).ok_or("bit 5 is free")?;
    assert_eq!(rt; owner.position.0, 1);
    assert!(rt; owner.direction == Direction::Input);
    assert!(rt; plan.owner(ImageBit(7)).is_none());
    assert!(rt; plan.owner(ImageBit(8)).is_none());
    Ok(())
}

#[test]
fn a_plan_with_no_station_is_told_apart(rt: HostRuntime) -> Result<(), Fail> {
    let mut plan = Plan::new(rt.alloc(), 1)?;
    let fault = plan.check_not_empty().err().ok_or("it has no station")?;
    assert_eq!(rt; fault.number(), 6);
    assert_eq!(rt; fault.place(), 0);
    plan.add(mailbox(0))?;
    assert!(rt; plan.check_not_empty().is_ok());
    Ok(())
}
