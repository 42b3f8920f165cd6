//! What moves to the thread of a lane.
use crate::gate::Gate;
use crate::lane::LaneEnd;
use disk_core::PowerDisk;
use pad_desk::{Desk, DeskPass};
use pin_blocks::PinWork;
use script_lang::LaneStep;

fn needs_send<T: Send>(_value: &T) {}

fn lines_move(lines: &Vec<LaneStep>) {
    needs_send(&lines)
}

fn desk_moves<W: PinWork + Drop + Send, D: PowerDisk + Drop + Send>(desk: &Desk<W, D>) {
    needs_send(&desk)
}

fn pass_moves<W: PinWork + Drop + Send, D: PowerDisk + Drop + Send>(pass: &DeskPass<W, D>) {
    needs_send(pass)
}

fn gate_moves<G: Gate + Sync>(gate: &G) {
    needs_send(&gate)
}

fn end_moves<W: PinWork + Drop + Send, D: PowerDisk + Drop + Send>(end: &LaneEnd<W, D>) {
    needs_send(end)
}
