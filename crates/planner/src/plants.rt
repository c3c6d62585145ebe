ghost use Rattle.planner.specs.Plants.{PlantsStand};

/// The law that the worked plants come out as they should. The contract is the law.
pub fn plants_stand()
    ensures { PlantsStand }
{}
