// The laws of scenes.
ghost use Rattle.path_scene.specs.Laws.{ReadyStay, ScenesStay};

/// A scene is that of the same program where its pool grew.
pub fn scenes_stay()
    ensures { ScenesStay }
{}

/// It stays ready, too.
pub fn ready_stay()
    ensures { ReadyStay }
{}
