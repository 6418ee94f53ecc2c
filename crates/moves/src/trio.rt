// The three objects of a scenario as one crew.
use crate::text::Standing;
use objects::chart_object::ChartObject;
use objects::crew::Crew;
use objects::flat_object::FlatObject;
use objects::joined::Joined;
use objects::net_object::NetObject;
use objects::reaction::Reaction;
use tables::tables::Tables;
use terms::event::Event;

// Object 1 of a scenario is the net, 2 the flat object and 3 the chart.
#[derive(Drop)]
pub(crate) struct Trio {
    crew: Joined<NetObject, Joined<FlatObject, ChartObject>>,
}

impl Trio {
    pub(crate) fn new(tables: &Tables) -> Trio {
        Trio {
            crew: Joined {
                front: NetObject::new(tables.net()),
                others: Joined {
                    front: FlatObject::new(tables),
                    others: ChartObject::new(tables.chart()),
                },
            },
        }
    }

    pub(crate) fn standing(&self, object: u8) -> Standing<'_> {
        match object {
            1 => Standing::Marks(self.crew.front.marks()),
            2 => Standing::State(self.crew.others.front.state()),
            _ => Standing::State(self.crew.others.others.state()),
        }
    }

    // Gives an event to an object, and leaves the others as they are.
    pub(crate) fn handle(&mut self, object: u8, event: &Event) -> Reaction {
        self.crew.handle(object, event)
    }
}
