//! What holds of a lane at all times.
ghost use Rattle.std.specs.Prelude.{◌≡◌, ℕ, List, [], ◌++◌, true};
ghost use mathlib.Core.Option.{some};
ghost use lib.ListN.{get_elem?};
ghost use Rattle.steal_lanes.specs.declared.lane_view.LaneView.{LaneView as AView};
ghost use Rattle.steal_lanes.specs.Queues.{IsLane, Replays, tickets_put, tickets_taken};

/// Between any two steps the puts and takes of a lane replay to what it holds. So the tickets that were put are those that were taken, in
/// the same order, and then those that it holds: none is lost, and none is taken twice. Its owner has seen all puts.
pub fn each_ticket_is_taken_once_in_the_order_of_puts()
    ensures replays { (items : List ℕ) (views : List AView) (lane : IsLane items views) → Replays [] lane.log items }
    ensures tickets { (items : List ℕ) (views : List AView) (lane : IsLane items views)
        → tickets_put lane.log ≡ tickets_taken lane.log ++ items }
    ensures owner { (items : List ℕ) (views : List AView) (lane : IsLane items views) (port : ℕ) (v : AView)
        → get_elem? views port ≡ some v → v.owns ≡ true → tickets_put v.seen ≡ tickets_put lane.log }
{}
