//! Laws of the definitions of rings. Each function does nothing: its contract is the law.
ghost use Rattle.ec_ring.specs.Addressing.{PositionMeansOne, StationMeansOne, StationPassesOthers};
ghost use Rattle.ec_ring.specs.Grid.{GridExists, RingIsColumns, RingIsGrid, SlaveIsRow};

/// Slave after slave, as the ring goes, ends in the last row and the last column of the grid.
#[tactic(auto, using(crate::proofs::GridLaws::grid_law))]
pub fn ring_is_grid()
    ensures { RingIsGrid }
{}

/// A whole frame past one slave after the other leaves what one datagram after the other leaves, each past all slaves.
#[tactic(auto, using(crate::proofs::Columns::columns_law))]
pub fn ring_is_columns()
    ensures { RingIsColumns }
{}

/// Any slaves and datagrams have a grid.
#[tactic(auto, using(crate::proofs::GridExists::grid_exists))]
pub fn grid_exists()
    ensures { GridExists }
{}

/// What one slave makes of the datagrams that come to it is its row of the grid.
#[tactic(auto, using(crate::proofs::GridLaws::row_law))]
pub fn slave_is_row()
    ensures { SlaveIsRow }
{}

/// A datagram by position acts at the slave at that position, and at no other.
#[tactic(auto, using(crate::proofs::AddressLaws::position_means_one))]
pub fn position_means_one()
    ensures { PositionMeansOne }
{}

/// A datagram by station address leaves a slave with another station address as it is.
#[tactic(auto, using(crate::proofs::AddressLaws::station_passes_others))]
pub fn station_passes_others()
    ensures { StationPassesOthers }
{}

/// A datagram by a station address that one slave has acts at this slave alone.
#[tactic(auto, using(crate::proofs::AddressLaws::station_means_one))]
pub fn station_means_one()
    ensures { StationMeansOne }
{}
