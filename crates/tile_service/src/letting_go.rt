//! How what a service has of a publication is let go: proved here alone, and not in each function that has one.
ghost use Rattle.std.specs.Prelude.{◌≡◌};
ghost use Rattle.tile_service.specs.declared.drafting.DraftStage.TheVariants.{Refused};

use crate::drafting::{Draft, DraftStage};
use crate::fault::ServiceFault;
use crate::reading::MapReading;
use area_content::{ContentDraft, SpentContent};
use feature_store::Moment;

/// Lets a moment go.
pub(crate) fn let_moment_go(_moment: Option<Moment>) {}

/// Lets the rest of what was spent go.
pub(crate) fn let_spent_go(_spent: Option<SpentContent>) {}

/// Lets a map in the reading go.
fn let_reading_go(_reading: MapReading) {}

/// Lets the stage of a draft go.
pub(crate) fn let_stage_go(stage: DraftStage) {
    match stage {
        DraftStage::Reading(reading) => let_reading_go(reading),
        DraftStage::Going(content) => content.end(),
        DraftStage::Found(_) => {}
        DraftStage::Refused(_) => {}
    }
}

/// Lets a draft and its moment go.
pub(crate) fn let_go(draft: Option<Draft>, moment: Option<Moment>) {
    let_moment_go(moment);
    if let Some(draft) = draft {
        let_stage_go(draft.stage);
    }
}

/// No content, for want of memory. What was read of the map is let go.
pub(crate) fn unread(reading: MapReading) -> DraftStage
    ensures { result ≡ Refused ServiceFault.Memory }
{
    let_reading_go(reading);
    DraftStage::Refused(ServiceFault::Memory)
}

/// No content, for this reason. What was made of it is let go.
pub(crate) fn refused(content: ContentDraft, fault: ServiceFault) -> DraftStage
    ensures { result ≡ Refused fault }
{
    content.end();
    DraftStage::Refused(fault)
}
