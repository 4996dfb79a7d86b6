//! The room of strings and DOMAINs.

ghost use Rattle.std.specs.Prelude.{◌≡◌, IfSome};
ghost use Rattle.co_dict_build.specs.Capacities.{Limits, capacity_of};
ghost use Rattle.co_sheet.specs.Content.{Row};
ghost use Rattle.conode_compare_values.specs.SheetValues.{room_of};
ghost use Rattle.conode_compare_values.specs.declared.rooms.Rooms.{Rooms};
ghost use Rattle.conode_compare_laws.specs.GivenRooms.{AreRoomsOf};

/// Where `compare` has a room of an entry, it is that of a device which is built of the same data
/// sheet with the same room of strings and DOMAINs. This is a law: a call of it changes nothing.
pub fn rooms_of_device()
    ensures { (limits : Limits) (rooms : Rooms) (row : Row) → AreRoomsOf limits rooms →
        IfSome (room_of rooms row) (λ room. room ≡ capacity_of limits row) }
{}
