//! What a history with its places says of itself.
ghost use Rattle.tx_events.specs.Base.{IsBase};
ghost use Rattle.tx_events.specs.History.{IsLegal};

use history_places::HistoryPlaces;

/// The history is legal, and its base is one.
pub fn legal(places: &HistoryPlaces)
    ensures legal { IsLegal places.now.base places.now.events }
    ensures base { IsBase places.now.base }
{
    let _events = places.replay().events();
}
